//! What is to be listed.
ghost use Rattle.std.specs.Prelude.{◌≡◌, ◌<◌, ◌≤◌, ◌^◌};
ghost use Rattle.ntfe_model.specs.Keys.{IsStart};
ghost use Rattle.class_text.specs.Forms.{form_of};
ghost use Rattle.steal_workers.specs.Forms.{IsFormOf};
ghost use Rattle.steal_workers.specs.Listings.{IsSmallLimit};

use class_text::TextForm;
use ntfe_model::{Choice, Geometry};
use std::marker::Model;

/// The number itself. It is one of 32 bits, which is known of a parameter alone.
fn ranged(limit: u32) -> u32
    ensures value { result ≡ limit }
    ensures small { result < 2 ^ 32 }
{
    limit
}

/// What is to be listed: the classes of a geometry after a start, or all of them where it is `None`,
/// in a form, up to a limit where there is one, with solver numbers below 2^width in size. The limit
/// counts the kept blocks of the form too.
#[derive(Drop)]
pub struct Listing<'g> {
    geometry: &'g Geometry,
    form: &'g TextForm,
    start: &'g Option<Choice>,
    limit: Option<u32>,
    width: u8,
}

impl<'g> Model for Listing<'g> {
    ghost use Rattle.std.specs.Prelude.{◌≤◌};
    ghost use Rattle.ntfe_model.specs.Keys.{IsStart};
    ghost use Rattle.class_text.specs.Forms.{form_of};
    ghost use Rattle.steal_workers.specs.Forms.{IsFormOf};
    ghost use Rattle.steal_workers.specs.Listings.{Listed};

    ghost Value = { Listed };

    ghost view = { λ l. record { geometry = l.geometry.now; form = form_of l.form.now; kept = l.form.now.kept; start = l.start.now; limit = l.limit; width = l.width } };

    ghost invariant = { λ l. IsFormOf l.geometry.now l.form.now × IsStart l.geometry.now l.start.now × (1 ≤ l.width) × (l.width ≤ 62) };
}

impl<'g> Listing<'g> {
    /// The listing of these classes. The form is of the geometry, and the width is from 1 to 62.
    pub fn new(
        geometry: &'g Geometry,
        form: &'g TextForm,
        start: &'g Option<Choice>,
        limit: Option<u32>,
        width: u8,
    ) -> Listing<'g>
        requires form { IsFormOf geometry.now form.now }
        requires start { IsStart geometry.now start.now }
        requires low { 1 ≤ width }
        requires high { width ≤ 62 }
        ensures { result ≡ record { geometry = geometry.now; form = form_of form.now; kept = form.now.kept; start = start.now; limit = limit; width = width } }
    {
        Listing {
            geometry,
            form,
            start,
            limit,
            width,
        }
    }

    /// The geometry.
    pub fn geometry(&self) -> &'g Geometry
        ensures { result.now ≡ self.now.geometry }
    {
        self.geometry
    }

    /// The form of the text.
    pub fn form(&self) -> &'g TextForm
        ensures form { form_of result.now ≡ self.now.form }
        ensures kept { result.now.kept ≡ self.now.kept }
        ensures fits { IsFormOf self.now.geometry result.now }
    {
        self.form
    }

    /// The choice after which the classes are listed.
    pub fn start(&self) -> &'g Option<Choice>
        ensures value { result.now ≡ self.now.start }
        ensures fits { IsStart self.now.geometry result.now }
    {
        self.start
    }

    /// The limit.
    pub fn limit(&self) -> Option<u32>
        ensures value { result ≡ self.now.limit }
        ensures small { IsSmallLimit result }
    {
        match self.limit {
            Some(limit) => Some(ranged(limit)),
            None => None,
        }
    }

    /// The width of the solver's numbers.
    pub fn width(&self) -> u8
        ensures value { result ≡ self.now.width }
        ensures low { 1 ≤ result }
        ensures high { result ≤ 62 }
    {
        self.width
    }
}
