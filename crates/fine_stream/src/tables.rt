//! The unit triples of a face, and which of them are in conflict, for the long run of a stream.
ghost use Rattle.std.specs.Prelude.{◌≡◌, ℕ, ◌<◌, ◌≤◌, ◌++◌, ◌∷◌, [], List as Items, All, Contains, IfOk, OnOk, length};
ghost use Rattle.ntfe_model.specs.declared.triangle.Triangle.{Triangle as AsTriangle};
ghost use Rattle.ntfe_model.specs.Charts.{Patch, AreApart, IsOf, IsUnit};
ghost use Rattle.fine_stream.specs.Places.{AreUnit, IsPlaceOf, AreFirstCandidates, AreCandidates, IsFan, TellsConflicts, AreRows, AreTables};

use crate::path::written;
use crate::sides::are_compatible;
use face_chart::Chart;
use ntfe_model::{List, Triangle};
use std::alloc::{AllocError, Global};

/// A table is made for faces with at most so many points and unit triples. So its rows take at most
/// 590 kilobytes, and it is made in well below a tenth of a second.
const MOST_POINTS: usize = 64;

const MOST_TRIPLES: usize = 768;

/// A point that may close a step to a triple, and the place of this triple in the table.
#[derive(Clone, Copy, Drop)]
pub struct Candidate {
    pub point: u32,
    pub place: usize,
}

/// The points that close a step to unit triples.
#[derive(Drop)]
pub struct Fan {
    pub from: u32,
    pub to: u32,
    pub candidates: Vec<Candidate>,
}

/// The unit triples of a face with their conflicts, or nothing of them, and then the search asks the chart.
#[derive(Drop)]
pub struct Tables {
    pub triples: Vec<Triangle>,
    /// For each triple, and each place of the table, whether it is in conflict with the triple there.
    pub rows: Vec<List<bool>>,
    pub fans: Vec<Fan>,
    /// By the number of a point: how many points of the face have lesser numbers.
    pub ranks: Vec<usize>,
    /// How many points the face has.
    pub points: usize,
    /// All points of the face, for steps whose fan is not here.
    pub all: Vec<Candidate>,
}

/// All points of the face, with one place.
fn all_points(alloc: Global, chart: &Chart, place: usize) -> Result<Vec<Candidate>, AllocError>
    ensures { IfOk result (λ v. (triples : Items AsTriangle) (a b : ℕ) → length triples ≤ place → AreCandidates chart.now triples a b v.items) }
{
    let mut all = Vec::new(alloc);
    for point in chart.points() {
        all.push(Candidate {
            point: *point,
            place,
        })?;
    }
    Ok(all)
}

/// Adds the triple if it is written so and a unit triple.
fn add_triple(
    chart: &Chart,
    a: u32,
    b: u32,
    c: u32,
    triples: &mut Vec<Triangle>,
) -> Result<(), AllocError>
    requires points { IsOf chart.now a × IsOf chart.now b × IsOf chart.now c }
    requires unit { AreUnit chart.now triples.old.items }
    ensures { OnOk result (AreUnit chart.now triples.new.items) }
{
    if a < b && a < c && chart.unit(a, b, c) {
        triples.push(Triangle { a, b, c })?;
    }
    Ok(())
}

/// Adds the unit triples that begin with these two points, as they are written.
fn add_triples(chart: &Chart, a: u32, b: u32, triples: &mut Vec<Triangle>) -> Result<(), AllocError>
    requires a { IsOf chart.now a }
    requires b { IsOf chart.now b }
    requires unit { AreUnit chart.now triples.old.items }
    ensures { OnOk result (AreUnit chart.now triples.new.items) }
{
    for c in chart.points() {
        add_triple(chart, a, b, *c, triples)?;
    }
    Ok(())
}

/// Adds the unit triples whose least point is this.
fn add_triples_from(chart: &Chart, a: u32, triples: &mut Vec<Triangle>) -> Result<(), AllocError>
    requires a { IsOf chart.now a }
    requires unit { AreUnit chart.now triples.old.items }
    ensures { OnOk result (AreUnit chart.now triples.new.items) }
{
    for b in chart.points() {
        add_triples(chart, a, *b, triples)?;
    }
    Ok(())
}

/// The unit triples of the face.
fn unit_triples(alloc: Global, chart: &Chart) -> Result<Vec<Triangle>, AllocError>
    ensures { IfOk result (λ v. AreUnit chart.now v.items) }
{
    let mut triples = Vec::new(alloc);
    for a in chart.points() {
        add_triples_from(chart, *a, &mut triples)?;
    }
    Ok(triples)
}

/// The place of a triple, and the length of the list where it is not there.
fn place_of(triples: &[Triangle], t: &Triangle) -> usize
    ensures within { result ≤ length triples.now }
    ensures place { IsPlaceOf triples.now result t.now }
{
    for i in 0..triples.len() {
        let u = &triples[i];
        if u.a == t.a && u.b == t.b && u.c == t.c {
            return i;
        }
    }
    triples.len()
}

/// Whether a triple is in conflict with each of the triples, in their order.
fn row_of(
    alloc: Global,
    chart: &Chart,
    triples: &[Triangle],
    t: &Triangle,
) -> Result<List<bool>, AllocError>
    requires apart { AreApart chart.now }
    requires triples { AreUnit chart.now triples.now }
    requires unit { IsUnit chart.now t.now.a t.now.b t.now.c }
    ensures { IfOk result (λ r. TellsConflicts chart.now triples.now t.now r) }
{
    let mut row = Vec::with_capacity(alloc, triples.len())?;
    for u in triples {
        row.push(!are_compatible(chart, u, t))?;
    }
    Ok(List::from_vec(row))
}

/// The rows of the first triples, where there is one for each of them.
fn rows_of(
    alloc: Global,
    chart: &Chart,
    triples: &[Triangle],
) -> Result<Vec<List<bool>>, AllocError>
    requires apart { AreApart chart.now }
    requires triples { AreUnit chart.now triples.now }
    ensures rows { IfOk result (λ v. AreRows chart.now triples.now v.items) }
    ensures count { IfOk result (λ v. length v.items ≡ length triples.now) }
{
    let mut rows = Vec::with_capacity(alloc, triples.len())?;
    for t in triples {
        rows.push(row_of(alloc, chart, triples, t)?)?;
    }
    Ok(rows)
}

/// Adds the point if it closes the step from a to b to a unit triple.
fn add_candidate(
    chart: &Chart,
    triples: &[Triangle],
    a: u32,
    b: u32,
    c: u32,
    candidates: &mut Vec<Candidate>,
) -> Result<(), AllocError>
    requires points { IsOf chart.now a × IsOf chart.now b × IsOf chart.now c }
    ensures { OnOk result ((ks : Items ℕ) → ((k : ℕ) → Contains ks k → k < c) → AreFirstCandidates chart.now triples.now a b ks candidates.old.items → AreFirstCandidates chart.now triples.now a b (ks ++ c ∷ []) candidates.new.items) }
{
    if !chart.unit(a, b, c) {
        return Ok(());
    }
    let place = place_of(triples, &written(a, b, c));
    candidates.push(Candidate { point: c, place })?;
    Ok(())
}

/// The points that close the step from a to b to a unit triple, with the places of these.
fn candidates_of(
    alloc: Global,
    chart: &Chart,
    triples: &[Triangle],
    a: u32,
    b: u32,
) -> Result<Vec<Candidate>, AllocError>
    requires a { IsOf chart.now a }
    requires b { IsOf chart.now b }
    ensures { IfOk result (λ v. AreCandidates chart.now triples.now a b v.items) }
{
    let mut candidates = Vec::new(alloc);
    for c in chart.points() {
        add_candidate(chart, triples, a, b, *c, &mut candidates)?;
    }
    Ok(candidates)
}

/// Adds the fans of the steps from a point.
fn add_fans(
    alloc: Global,
    chart: &Chart,
    triples: &[Triangle],
    a: u32,
    fans: &mut Vec<Fan>,
) -> Result<(), AllocError>
    requires a { IsOf chart.now a }
    requires fans { All (IsFan chart.now triples.now) fans.old.items }
    ensures { OnOk result (All (IsFan chart.now triples.now) fans.new.items) }
{
    for b in chart.points() {
        let candidates = candidates_of(alloc, chart, triples, a, *b)?;
        fans.push(Fan {
            from: a,
            to: *b,
            candidates,
        })?;
    }
    Ok(())
}

/// The fans of all steps.
fn fans_of(alloc: Global, chart: &Chart, triples: &[Triangle]) -> Result<Vec<Fan>, AllocError>
    ensures { IfOk result (λ v. All (IsFan chart.now triples.now) v.items) }
{
    let mut fans = Vec::new(alloc);
    for a in chart.points() {
        add_fans(alloc, chart, triples, *a, &mut fans)?;
    }
    Ok(fans)
}

/// For each number up to the last point's: how many points have lesser numbers.
fn ranks_of(alloc: Global, points: &[u32]) -> Result<Vec<usize>, AllocError> {
    let mut ranks = Vec::new(alloc);
    if let Some(last) = points.last() {
        for number in 0..=*last {
            ranks.push(points.iter().take_while(|point| **point < number).count())?;
        }
    }
    Ok(ranks)
}

/// The tables with nothing in them but the points.
pub fn empty_tables(alloc: Global, chart: &Chart) -> Result<Tables, AllocError>
    ensures { IfOk result (AreTables chart.now) }
{
    let all = all_points(alloc, chart, 0)?;
    Ok(Tables {
        triples: Vec::new(alloc),
        rows: Vec::new(alloc),
        fans: Vec::new(alloc),
        ranks: Vec::new(alloc),
        points: 0,
        all,
    })
}

/// The tables of these unit triples.
fn tables_of(alloc: Global, chart: &Chart, triples: Vec<Triangle>) -> Result<Tables, AllocError>
    requires apart { AreApart chart.now }
    requires triples { AreUnit chart.now triples.items }
    ensures { IfOk result (AreTables chart.now) }
{
    let all = all_points(alloc, chart, triples.len())?;
    let rows = rows_of(alloc, chart, triples.as_slice())?;
    let fans = fans_of(alloc, chart, triples.as_slice())?;
    let ranks = ranks_of(alloc, chart.points())?;
    Ok(Tables {
        triples,
        rows,
        fans,
        ranks,
        points: chart.points().len(),
        all,
    })
}

/// The tables of the face, where it is not too large for them.
pub fn full_tables(alloc: Global, chart: &Chart) -> Result<Tables, AllocError>
    ensures { IfOk result (AreTables chart.now) }
{
    if chart.points().len() <= MOST_POINTS {
        let triples = unit_triples(alloc, chart)?;
        if triples.len() <= MOST_TRIPLES {
            return tables_of(alloc, chart, triples);
        }
    }
    empty_tables(alloc, chart)
}

impl Tables {
    /// Where the fan of a step stands, if it is here.
    fn fan_place(&self, a: u32, b: u32) -> usize {
        let from = self.ranks.get(a as usize).copied().unwrap_or(usize::MAX);
        let to = self.ranks.get(b as usize).copied().unwrap_or(usize::MAX);
        from.saturating_mul(self.points).saturating_add(to)
    }

    /// Points by rising numbers, among them all that close the step from a to b to a unit triple.
    pub fn candidates(&self, a: u32, b: u32) -> &[Candidate]
        ensures { (h : Patch) → AreTables h self.now → AreCandidates h self.now.triples.items a b result.now }
    {
        if let Some(fan) = self.fans.get(self.fan_place(a, b)) {
            if fan.from == a && fan.to == b {
                return fan.candidates.as_slice();
            }
        }
        self.all.as_slice()
    }

    /// For the first places, whether the triple there is in conflict with the one at this place.
    pub fn row(&self, place: usize) -> &[bool]
        ensures { (h : Patch) (t : AsTriangle) → AreTables h self.now → IsPlaceOf self.now.triples.items place t → TellsConflicts h self.now.triples.items t result.now }
    {
        match self.rows.get(place) {
            Some(row) => row.as_slice(),
            None => &[],
        }
    }

    /// The place of a triple.
    pub fn place(&self, t: &Triangle) -> usize
        ensures { IsPlaceOf self.now.triples.items result t.now }
    {
        place_of(self.triples.as_slice(), t)
    }
}
