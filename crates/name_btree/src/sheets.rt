//! Images of pages, in order.
ghost use Rattle.std.specs.Prelude.{◌≡◌, ◌<◌, ◌≤◌, [], ◌∷◌, ◌++◌, length};
ghost use Rattle.name_page.specs.declared.pages.TheConstants.{MOST_CHANGED};

use crate::draft::Sheet;
use arrayvec::ArrayVec;
use name_page::MOST_CHANGED;
use std::marker::Model;
use std::slice;

/// Sheets in order. Room for more than one is made once there are two, since most changes write one page.
#[derive(Drop)]
pub(crate) struct Sheets {
    one: Option<Sheet>,
    more: Option<ArrayVec<Sheet, MOST_CHANGED>>,
}

impl Model for Sheets {
    ghost use Rattle.arrayvec.specs.ArrayVec.{ArrayVec as Items};
    ghost use Rattle.name_btree.specs.declared.draft.Sheet.{Sheet};
    ghost use Rattle.name_btree.specs.Sheets.{sheets_of};

    ghost Value = { Items Sheet };

    ghost view = { λ s. record { items = sheets_of s.one s.more } };
}

impl Sheets {
    pub(crate) fn new() -> Sheets
        ensures { result.items ≡ [] }
    {
        Sheets {
            one: None,
            more: None,
        }
    }

    pub(crate) fn as_slice(&self) -> &[Sheet]
        ensures { result.now ≡ self.now.items }
    {
        match &self.more {
            Some(sheets) => sheets.as_slice(),
            None => match &self.one {
                Some(sheet) => slice::from_ref(sheet),
                None => &[],
            },
        }
    }

    pub(crate) fn push(&mut self, sheet: Sheet)
        requires { length self.old.items < MOST_CHANGED }
        ensures items { self.new.items ≡ self.old.items ++ sheet ∷ [] }
    {
        if let Some(sheets) = &mut self.more {
            sheets.push(sheet);
            return;
        }
        match self.one.take() {
            None => self.one = Some(sheet),
            Some(first) => self.more = Some(both(first, sheet)),
        }
    }
}

fn both(first: Sheet, second: Sheet) -> ArrayVec<Sheet, MOST_CHANGED>
    ensures { result.items ≡ first ∷ second ∷ [] }
{
    let mut sheets = ArrayVec::new();
    sheets.push(first);
    sheets.push(second);
    sheets
}
