//! What may look on, and hold up, a frame while it is drawn.

/// Is asked by the threads that draw a frame, at the places that its calls name. Each call may wait, and changes nothing
/// of what is drawn. As they stand here, they return at once.
pub trait Gate: Sync {
    /// Before a bin draws its next piece, of which it has drawn so many.
    fn before(&self, bin: u32, taken: u32) {
        let _ = (bin, taken);
    }

    /// Before a batch is binned.
    fn submits(&self, batch: u32) {
        let _ = batch;
    }

    /// Where a bin has drawn all batches that were submitted, and more are to come.
    fn idle(&self, bin: u32) {
        let _ = bin;
    }

    /// Before an object is looked at while its frame is drawn.
    fn looks(&self, round: u32, object: u32) {
        let _ = (round, object);
    }
}

/// Holds nothing up.
pub struct OpenGate;

impl Gate for OpenGate {}
