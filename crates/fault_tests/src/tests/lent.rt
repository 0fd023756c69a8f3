//! A keeper that is lent, so that it can be looked at afterwards, and opened again.

use keepers::{Keep, KeepFault};

/// A keeper that another has.
#[derive(Drop)]
pub struct Lent<'a, K: Keep> {
    keep: &'a mut K,
}

impl<'a, K: Keep> Lent<'a, K> {
    /// The keeper, as long as it is lent.
    pub fn new(keep: &'a mut K) -> Lent<'a, K> {
        Lent { keep }
    }
}

impl<'a, K: Keep> Keep for Lent<'a, K> {
    ghost held = { λ lent. K.held lent.keep.now };

    ghost is_honest = { λ lent. K.is_honest lent.keep.now };

    ghost place = { λ lent. K.place lent.keep.now };

    ghost is_durable = { K.is_durable };

    ghost may_leave = { λ lent. K.may_leave lent.keep.now };

    ghost moment = { λ lent. K.moment lent.keep.now };

    ghost left_since = { λ lent. K.left_since lent.keep.now };

    ghost counts_now = { λ lent. K.counts_now lent.keep.now };

    ghost only_now = { λ lent. K.only_now lent.keep.now };

    ghost count = { λ lent. K.count lent.keep.now };

    ghost load_fails = { λ old new. K.load_fails old.keep.now new.keep.now };

    ghost save_fails = { λ old bytes new. K.save_fails old.keep.now bytes new.keep.now };

    fn load(&mut self) -> Result<Vec<u8>, KeepFault> {
        self.keep.load()
    }

    fn save(&mut self, bytes: &[u8]) -> Result<(), KeepFault> {
        self.keep.save(bytes)
    }

    fn failures(&self) -> u64 {
        self.keep.failures()
    }
}
