//! The guard over the pad, the sixteen bytes in which counter blocks are encrypted.
ghost use Rattle.std.specs.Prelude.{◌≡◌, replicate};

/// Holds the caller's pad while a run is covered. However the covering ends, the pad is sixteen bytes 00 after it.
pub(crate) struct Pad<'a> {
    pub(crate) bytes: &'a mut [u8; 16],
}

impl Drop for Pad<'_> {
    fn drop(self)
        ensures { self.exit.0.now ≡ replicate 16 0 }
    {
        *self.bytes = [0; 16];
        let Pad { bytes: _ } = self;
    }
}
