// What a run holds beside its host, in fixed memory.
ghost use Rattle.std.specs.Prelude.{◌≡◌};
ghost use Rattle.forms.specs.Heads.{IsForm};
ghost use Rattle.walks.specs.Contents.{content};
ghost use Rattle.runs.specs.Facts.{FormalsBind, BodiesFit, StateFits};
ghost use Rattle.engine.specs.Held.{definitions_held, WholeFile, held};

use crate::record::Record;
use crate::table::Table;
use crate::whole::Whole;
use walks::buffer::Buffer;

// The file is there if it was accepted: with one that was refused nothing is loaded.
#[derive(Clone, Copy)]
pub(crate) struct Plain {
    pub(crate) file: Option<Buffer>,
    pub(crate) clock: u32,
    pub(crate) form: Buffer,
    pub(crate) issued: u32,
    pub(crate) events: Record,
    pub(crate) table: Table,
    ghost whole_file: { WholeFile file },
    ghost whole_form: { IsForm (content form) },
    ghost formals: { FormalsBind (definitions_held file) },
    ghost bodies: { BodiesFit (definitions_held file) },
    ghost fits: { StateFits (held file clock form issued events table) },
}

impl Plain {
    // The form that stands.
    pub(crate) fn standing(&self) -> Whole<'_>
        ensures { result.form.bytes.now ≡ content self.now.form }
    {
        Whole::new(&self.form)
    }

    // The same, with the lengths of the forms in it, in a table that is lent for it.
    pub(crate) fn measured<'a>(&'a self, lengths: &'a mut [u16]) -> Whole<'a>
        ensures { result.form.bytes.now ≡ content self.now.form }
    {
        Whole::measured(&self.form, lengths)
    }
}
