//! What may cross from one thread to another.

/// Holds of what may be shared between threads and moved to one.
pub(crate) fn crosses_threads<T: Send + Sync>() {}
