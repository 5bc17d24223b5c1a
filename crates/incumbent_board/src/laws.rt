//! Laws of boards: six words give their standing back, and seats stay seats.

ghost use Rattle.incumbent_board.specs.Words.{WordsSpellStandings};
ghost use Rattle.incumbent_board.specs.Boards.{SeatsStay};

/// Packing loses nothing: two standings with paths of one length and the same words are the same.
pub fn words_spell_standings()
    ensures { WordsSpellStandings }
{}

/// All seats of a board, each of which looked and offered meanwhile, are still all its seats.
pub fn seats_stay()
    ensures { SeatsStay }
{}
