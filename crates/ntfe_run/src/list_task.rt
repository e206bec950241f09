//! Classes that are to be listed.
ghost use Rattle.std.specs.Prelude.{◌≡◌, ◌≤◌, IfOk};
ghost use Rattle.io_edge.specs.Lines.{WritesText};
ghost use Rattle.ntfe_model.specs.Keys.{IsStart};
ghost use Rattle.class_text.specs.Earlier.{kept_of};
ghost use Rattle.ntfe_run.specs.Statuses.{head_of};
ghost use Rattle.ntfe_run.specs.Dues.{due_of};

use crate::commands::classes::text_form;
use crate::listing::write_head_due;
use class_text::{Earlier, TextForm};
use io_edge::{LineFault, Sink};
use ntfe_model::Geometry;
use ntfe_words::Options;
use std::alloc::{AllocError, Global};
use std::marker::Model;
use steal_workers::Listing;

/// Classes that are to be listed.
#[derive(Drop)]
pub struct ListTask {
    geometry: Geometry,
    earlier: Earlier,
    form: TextForm,
    limit: Option<u32>,
    width: u8,
    workers: u16,
}

impl Model for ListTask {
    ghost use Rattle.class_text.specs.Forms.{form_of};
    ghost use Rattle.ntfe_run.specs.Dues.{DueList, IsReady};

    ghost Value = { DueList };

    ghost view = { λ t. record { listed = record { geometry = t.geometry; form = form_of t.form; kept = t.form.kept; start = t.earlier.last; limit = t.limit; width = t.width }; bytes = t.earlier.kept } };

    ghost invariant = { λ t. IsReady t.geometry t.form t.earlier.last t.width };
}

impl ListTask {
    /// The classes of the geometry that the options ask for, behind what is kept of an earlier output. The width is from
    /// 1 to 62.
    ///
    /// # Errors
    /// `AllocError` where memory is short.
    pub fn new(
        alloc: Global,
        options: &Options,
        geometry: Geometry,
        earlier: Earlier,
    ) -> Result<ListTask, AllocError>
        requires low { 1 ≤ options.now.width }
        requires high { options.now.width ≤ 62 }
        requires start { IsStart geometry earlier.last }
        ensures { IfOk result (λ t. t ≡ due_of options.now geometry (kept_of earlier)) }
    {
        let form = text_form(alloc, options, &geometry, earlier.count)?;
        Ok(ListTask {
            geometry,
            earlier,
            form,
            limit: options.limit,
            width: options.width,
            workers: options.workers,
        })
    }

    /// What is to be listed.
    pub fn listing(&self) -> Listing<'_>
        ensures { result ≡ self.now.listed }
    {
        Listing::new(
            &self.geometry,
            &self.form,
            &self.earlier.last,
            self.limit,
            self.width,
        )
    }

    /// The geometry whose classes they are.
    pub fn geometry(&self) -> &Geometry
        ensures { result.now ≡ self.now.listed.geometry }
    {
        &self.geometry
    }

    /// How many workers may be taken.
    pub fn workers(&self) -> u16 {
        self.workers
    }

    /// Writes the head, where nothing is kept of an earlier output.
    pub fn write_head<K: Sink>(&self, alloc: Global, out: &mut K) -> Result<(), LineFault>
        ensures { WritesText (K.taken out.old) (K.taken out.new) (K.faults out.old) (K.faults out.new) result (head_of self.now.listed self.now.bytes) }
    {
        write_head_due(alloc, &self.form, self.earlier.kept == 0, out)
    }
}
