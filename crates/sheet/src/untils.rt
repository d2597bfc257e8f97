// The four untils, each from the sets of the stages where its parts hold. A stage may be passed if it is silent, or if
// the left part holds there.
ghost use Rattle.std.specs.Prelude.{◌≡◌, ◌*◌, ◌<◌, ◌≤◌, length};
ghost use Rattle.rules.specs.Lines.{largest_number};
ghost use Rattle.tally.specs.Algebras.{reach_algebra};
ghost use Rattle.tally.specs.Walks.{tallied};
ghost use Rattle.tctl.specs.Checker.{non, some_list, each_list, open?, ◌and◌, ◌or◌};
ghost use Rattle.tctl.specs.Rules.{most, least};
ghost use Rattle.sheet.specs.Sets.{has, stage_count, timed, Says, UntilSet};
ghost use Rattle.sheet.specs.Told.{Spent, reaches};
ghost use Rattle.sheet.specs.Tables.{AreReady, AreSpent, SameSlices};

use crate::paths::Paths;
use crate::stage_set::{StageSet, is_open};
use crate::tables::Tables;
use crate::told::tell;
use tally::Reach;

// Where there is a walk.
fn reach(
    paths: &Paths,
    pass: &StageSet,
    goals: &StageSet,
    table: &mut [Reach],
    reached: &mut StageSet,
)
    requires room { 4 * stage_count paths.now ≤ length table.old }
    ensures is { Says (stage_count paths.now) reached.new (λ s. reaches 0
        (tallied reach_algebra paths.now.moves.now (has pass.now) (has goals.now)
        (stage_count paths.now) s)) }
    ensures spent { Spent reach_algebra.none (stage_count paths.now) table.old table.new }
{
    tell(paths, pass, goals, 0, table, reached);
}

// Silent, or f.
fn passes(paths: &Paths, f: &StageSet, s: usize) -> bool
    requires { s < stage_count paths.now }
    ensures { result ≡ (non (open? (timed paths.now) s) or has f.now s) }
{
    !is_open(paths, s) || f.has(s)
}

// Silent, or not g.
fn misses(paths: &Paths, g: &StageSet, s: usize) -> bool
    requires { s < stage_count paths.now }
    ensures { result ≡ non (open? (timed paths.now) s and has g.now s) }
{
    !is_open(paths, s) || !g.has(s)
}

// Open, not f, not g.
fn breaks(paths: &Paths, f: &StageSet, g: &StageSet, s: usize) -> bool
    requires { s < stage_count paths.now }
    ensures { result ≡ (open? (timed paths.now) s and (non (has f.now s) and non (has g.now s))) }
{
    is_open(paths, s) && !f.has(s) && !g.has(s)
}

// Where E[f U<=c g] holds.
pub(crate) fn some_most(
    paths: &Paths,
    f: &StageSet,
    c: u32,
    g: &StageSet,
    tables: &mut Tables,
    holds: &mut StageSet,
)
    requires small { c ≤ largest_number }
    requires ready { AreReady (stage_count paths.now) tables.old }
    ensures is { UntilSet some_list paths.now f.now (most c) g.now holds.new }
    ensures spent { AreSpent (stage_count paths.now) tables.old tables.new }
    ensures slices { SameSlices tables.old tables.new }
{
    let n = paths.stages.len();
    let mut pass = StageSet::none();
    pass.fill(n, |s| passes(paths, f, s));
    let mut soon = StageSet::none();
    tell(paths, &pass, g, c, tables.shortest, &mut soon);
    holds.fill(n, |s| is_open(paths, s) && soon.has(s));
}

// Where E[f U>=c g] holds.
pub(crate) fn some_least(
    paths: &Paths,
    f: &StageSet,
    c: u32,
    g: &StageSet,
    tables: &mut Tables,
    holds: &mut StageSet,
)
    requires small { c ≤ largest_number }
    requires ready { AreReady (stage_count paths.now) tables.old }
    ensures is { UntilSet some_list paths.now f.now (least c) g.now holds.new }
    ensures spent { AreSpent (stage_count paths.now) tables.old tables.new }
    ensures slices { SameSlices tables.old tables.new }
{
    let n = paths.stages.len();
    let mut pass = StageSet::none();
    pass.fill(n, |s| passes(paths, f, s));
    let mut led = StageSet::none();
    reach(paths, &pass, g, tables.reached, &mut led);
    let mut ever = StageSet::none();
    ever.fill(n, |s| pass.has(s) && led.has(s));
    ever.keep_endless(paths);
    pass.remove(n, &ever);
    let mut long = StageSet::none();
    tell(paths, &pass, g, c, tables.longest, &mut long);
    holds.fill(n, |s| { is_open(paths, s) && (ever.has(s) || long.has(s)) });
}

// Where A[f U<=c g] holds.
pub(crate) fn each_most(
    paths: &Paths,
    f: &StageSet,
    c: u32,
    g: &StageSet,
    tables: &mut Tables,
    holds: &mut StageSet,
)
    requires small { c ≤ largest_number }
    requires ready { AreReady (stage_count paths.now) tables.old }
    ensures is { UntilSet each_list paths.now f.now (most c) g.now holds.new }
    ensures spent { AreSpent (stage_count paths.now) tables.old tables.new }
    ensures slices { SameSlices tables.old tables.new }
{
    let n = paths.stages.len();
    let mut missed = StageSet::none();
    missed.fill(n, |s| misses(paths, g, s));
    let mut bad = StageSet::none();
    bad.fill(n, |s| breaks(paths, f, g, s));
    let mut fails = StageSet::none();
    reach(paths, &missed, &bad, tables.reached, &mut fails);
    let mut ever = missed;
    ever.keep_endless(paths);
    missed.remove(n, &ever);
    let all = StageSet::all();
    let mut long = StageSet::none();
    tell(paths, &missed, &all, c + 1, tables.longest, &mut long);
    holds.fill(n, |s| {
        is_open(paths, s) && !(fails.has(s) || ever.has(s) || long.has(s))
    });
}

// Where A[f U>=c g] holds.
pub(crate) fn each_least(
    paths: &Paths,
    f: &StageSet,
    c: u32,
    g: &StageSet,
    tables: &mut Tables,
    holds: &mut StageSet,
)
    requires small { c ≤ largest_number }
    requires ready { AreReady (stage_count paths.now) tables.old }
    ensures is { UntilSet each_list paths.now f.now (least c) g.now holds.new }
    ensures spent { AreSpent (stage_count paths.now) tables.old tables.new }
    ensures slices { SameSlices tables.old tables.new }
{
    let n = paths.stages.len();
    let mut ever = StageSet::none();
    ever.fill(n, |s| misses(paths, g, s));
    let mut bad = StageSet::none();
    bad.fill(n, |s| breaks(paths, f, g, s));
    let mut fails = StageSet::none();
    reach(paths, &ever, &bad, tables.reached, &mut fails);
    ever.keep_endless(paths);
    let mut doomed = StageSet::none();
    doomed.fill(n, |s| fails.has(s) || ever.has(s));
    let mut pass = StageSet::none();
    pass.fill(n, |s| passes(paths, f, s));
    let mut sources = StageSet::none();
    sources.add_sources(paths, &doomed);
    let mut goals = StageSet::none();
    goals.fill(n, |s| {
        is_open(paths, s) && !f.has(s) || pass.has(s) && sources.has(s)
    });
    let mut soon = StageSet::none();
    tell(
        paths,
        &pass,
        &goals,
        c.saturating_sub(1),
        tables.shortest,
        &mut soon,
    );
    holds.fill(n, |s| {
        is_open(paths, s) && !(doomed.has(s) || c > 0 && soon.has(s))
    });
}
