//! A handle by which the drain is roused.
use crate::seats::Rouser;

impl Rouser<'_> {
    /// Lets the drain take what was accepted until now: it wakes the drain where that rests. Where all of it was taken, or the
    /// drain is told already, it does nothing. It waits for nobody.
    pub fn rouse(&self) {
        self.board.rouse();
    }
}
