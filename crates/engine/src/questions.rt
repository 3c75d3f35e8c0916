// The questions, which change nothing.
ghost use Rattle.std.specs.Prelude.{◌≡◌, length};
ghost use Rattle.std.specs.List.{slice_get};
ghost use Rattle.reading_log.specs.View.{logged};

use crate::Engine;
use filter::Filter;
use reading::plain::Entry;

impl<F: Filter> Engine<F> {
    pub fn estimate(&self) -> F::Estimate
        ensures { result ≡ F.Filter.shown (F.Filter.state self.now.filter) }
    {
        self.filter.estimate()
    }

    pub fn floor(&self) -> u64
        ensures { result ≡ self.now.floor }
    {
        self.floor
    }

    // How many readings are logged.
    pub fn len(&self) -> usize
        ensures { result ≡ length (logged self.now.log) }
    {
        self.log.len()
    }

    // The entry at a place, or none from the length on.
    pub fn entry(&self, place: usize) -> Option<Entry>
        ensures { result ≡ slice_get (logged self.now.log) place }
    {
        self.log.row_at(place)
    }
}
