// The readings that stand, in key order, and the same engine reached by offering them so.
use reading::Reading;
use reading::plain::EntryKey;
use runs::plain::Call;
use std::alloc::{AllocError, Global};
use std::collections::BTreeMap;

#[derive(Drop)]
pub(crate) struct Standing {
    readings: BTreeMap<EntryKey, Reading>,
    floor: u64,
    pub(crate) accepted: u64,
    // readings that came after one with a greater key
    pub(crate) late: u64,
}

impl Standing {
    pub(crate) fn new(heap: Global) -> Standing {
        Standing {
            readings: BTreeMap::new(heap),
            floor: 0,
            accepted: 0,
            late: 0,
        }
    }

    // Takes an accepted call over.
    pub(crate) fn accept(&mut self, call: Call) -> Result<(), AllocError> {
        self.accepted = self.accepted.saturating_add(1);
        match call {
            Call::Offer(reading) => {
                let key = reading.key().plain();
                if self
                    .readings
                    .last_key_value()
                    .is_some_and(|(last, _)| *last > key)
                {
                    self.late = self.late.saturating_add(1);
                }
                self.readings.insert(key, reading)?;
            }
            Call::Withdraw(key) => {
                self.readings.remove(&key.plain());
            }
            Call::Revise(reading) => {
                self.readings.insert(reading.key().plain(), reading)?;
            }
            Call::Settle(ticks) => self.floor = ticks,
        }
        Ok(())
    }

    // Calls that offer the standing readings in key order, each as soon as it may come, and end at the same floor.
    pub(crate) fn in_key_order(&self, heap: Global) -> Result<Vec<Call>, AllocError> {
        let mut calls = Vec::new(heap);
        let mut floor = 0;
        for reading in self.readings.values() {
            let stamp = reading.stamp().ticks().min(self.floor);
            if stamp > floor {
                floor = stamp;
                calls.push(Call::Settle(floor))?;
            }
            calls.push(Call::Offer(*reading))?;
        }
        if self.floor > floor {
            calls.push(Call::Settle(self.floor))?;
        }
        Ok(calls)
    }
}
