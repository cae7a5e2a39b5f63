//! Notes on what a link chose: the file of each module by its number, and which COMDATs are left out.

use crate::links::NumberedLink;
use crate::names::{Known, shown};
use crate::{Lines, note};
use comdat_core::{TakenOut, has_comdats, taken_out};
use link_model::Pick;
use refusal_text::LinkFiles;

/// Adds notes on the modules that a link chose, by their numbers, and on the COMDATs of these that are left out.
pub fn notes_on_modules(lines: &mut Lines, files: &LinkFiles) {
    match NumberedLink::of(lines.alloc, files) {
        Ok(link) => link.notes_on_picks(lines),
        Err(_) => lines.fail(),
    }
}

impl NumberedLink<'_> {
    fn notes_on_picks(&self, lines: &mut Lines) {
        self.add_modules(lines);
        if has_comdats(&self.read.input) {
            self.add_left_out(lines);
        }
    }

    fn add_modules(&self, lines: &mut Lines) {
        for (place, pick) in self.picks.as_slice().iter().enumerate() {
            let number = place.saturating_add(1);
            let name = self.known(*pick);
            note!(lines; "module {number} is {name}");
        }
    }

    // The module at a place among the object files and then the modules of the libraries.
    fn known_at(&self, place: usize) -> Known<'_> {
        match place.checked_sub(self.read.input.objects.as_slice().len()) {
            Some(index) => self.in_library(index),
            None => self.object(place),
        }
    }

    // The COMDATs of a chosen module that are left out, each with the one that stays.
    fn add_of_module(&self, lines: &mut Lines, out: &TakenOut<'_>, pick: Pick) {
        let lists = if pick.lib { &out.libs } else { &out.objects };
        let Some(taken) = lists.get(pick.index as usize) else {
            return;
        };
        let by = self.known(pick);
        for one in taken {
            let name = shown(self.alloc, one.own.comdat.name.bytes());
            let first = self.known_at(one.first.place);
            note!(lines; "the COMDAT {name} of {by} is left out: that of {first} stays");
        }
    }

    fn add_left_out(&self, lines: &mut Lines) {
        match taken_out(self.alloc, &self.read.input) {
            Ok(out) => {
                for pick in self.picks.as_slice() {
                    self.add_of_module(lines, &out, *pick);
                }
            }
            Err(_) => lines.fail(),
        }
    }
}
