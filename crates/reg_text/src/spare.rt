//! Memory that is no longer needed, for texts that several threads spell.

use crate::rooms::with_room;
use std::alloc::Global;
use std::mem;
use std::sync::Mutex;

/// Texts that are no longer needed. Each stands behind a lock of its own, which is only tried: no thread waits for
/// another one. Nothing is promised of what a thread gets: it may be a text without memory.
#[derive(Drop)]
pub(crate) struct Spare {
    texts: Vec<Mutex<Vec<u8>>>,
}

impl Spare {
    /// These texts. Where memory for the locks is refused, the texts are dropped.
    pub(crate) fn of(alloc: Global, texts: Vec<Vec<u8>>) -> Self {
        let mut locked = with_room(alloc, texts.len());
        for text in texts {
            let _ = locked.push(Mutex::new(text));
        }
        Spare { texts: locked }
    }

    /// A text that nobody has taken, with its old bytes. If there is none, an empty one that has no memory.
    pub(crate) fn take(&self, alloc: Global) -> Vec<u8> {
        for slot in &self.texts {
            if let Some(mut text) = slot.try_lock() {
                if text.capacity() > 0 {
                    return mem::replace(&mut *text, Vec::new(alloc));
                }
            }
        }
        Vec::new(alloc)
    }
}
