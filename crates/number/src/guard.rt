// The guard of a reader's place.
ghost use Rattle.std.specs.Prelude.{◌≡◌, unwrap_or};

// Lends a reader's place while a record is read, and puts it back where `back` says; None keeps it.
pub struct Guard<'a> {
    pub place: &'a mut usize,
    pub back: Option<usize>,
}

impl Drop for Guard<'_> {
    fn drop(self)
        ensures { self.exit.0.now ≡ unwrap_or self.entry.back self.entry.place.now }
    {
        let Guard { place, back } = self;
        if let Some(start) = back {
            *place = start;
        }
    }
}
