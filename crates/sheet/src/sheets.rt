// The sheet, a column a line: word s has bit k exactly for the lines k that hold at stage s.
ghost use Rattle.std.specs.Prelude.{◌≡◌, ◌+◌, ◌^◌, ◌<◌, ◌≤◌, length, if◌then◌else◌};
ghost use Rattle.program.specs.Meaning.{prog, most_stages};
ghost use Rattle.rules.specs.Lines.{most_lines, largest_number, bound_number, Formed, WellFormed};
ghost use Rattle.settle.specs.Rows.{RestKept};
ghost use Rattle.tctl.specs.Runs.{Sound};
ghost use Rattle.tctl.specs.Holds.{marked};
ghost use Rattle.tctl.specs.Checker.{at};
ghost use Rattle.sheet.specs.Sets.{has, listed, stage_count, timed};
ghost use Rattle.sheet.specs.Tables.{HaveRoom, AreReady, AreSpent, SameSlices};
ghost use Rattle.sheet.specs.Sheets.{bit, column, until_list, line_list, Added, Below, Names};

use crate::paths::Paths;
use crate::stage_set::{StageSet, is_open};
use crate::tables::Tables;
use crate::untils::{each_least, each_most, some_least, some_most};
use rules::line::{Bound, Line, Quantifier};

fn bit_of(word: u32, k: usize) -> bool
    requires { k < most_lines }
    ensures { result ≡ bit k word }
{
    (word >> k) % 2 == 1
}

// The word with value 2^k set, if the line holds.
fn with_line(word: u32, k: usize, holds: bool) -> u32
    requires { (k < most_lines) × (word < 2 ^ k) }
    ensures { result ≡ word + (if holds then 2 ^ k else 0) }
{
    if holds { word | (1 << k) } else { word }
}

// The stages at which a line of the sheet holds.
fn read_column(n: usize, k: usize, sheet: &[u32], holds: &mut StageSet)
    requires number { k < most_lines }
    requires few { n ≤ most_stages }
    requires sheet { n ≤ length sheet.now }
    ensures { listed n holds.new ≡ column n sheet.now k }
{
    holds.fill(n, |s| bit_of(sheet[s], k));
}

fn write_column(n: usize, k: usize, holds: &StageSet, sheet: &mut [u32])
    requires number { k < most_lines }
    requires few { n ≤ most_stages }
    requires sheet { n ≤ length sheet.old }
    requires below { Below n k sheet.old }
    ensures written { Added n k (has holds.now) sheet.old sheet.new }
    ensures above { RestKept n sheet.old sheet.new }
{
    for (s, word) in sheet[..n].iter_mut().enumerate() {
        *word = with_line(*word, k, holds.has(s));
    }
}

// Whether a stage bears a mark, open or not.
fn has_mark(paths: &Paths, s: usize, letter: u8) -> bool
    requires { (s < stage_count paths.now) × (letter < 16) }
    ensures { result ≡ marked (timed paths.now) s letter }
{
    (paths.stages[s].marks >> letter) % 2 == 1
}

// Where an until holds, from where its parts do.
fn until_set(
    paths: &Paths,
    quantifier: Quantifier,
    f: &StageSet,
    bound: Bound,
    g: &StageSet,
    tables: &mut Tables,
    holds: &mut StageSet,
)
    requires small { bound_number bound ≤ largest_number }
    requires ready { AreReady (stage_count paths.now) tables.old }
    ensures is { listed (stage_count paths.now) holds.new
        ≡ until_list (timed paths.now) quantifier bound (listed (stage_count paths.now) f.now)
        (listed (stage_count paths.now) g.now) }
    ensures spent { AreSpent (stage_count paths.now) tables.old tables.new }
    ensures slices { SameSlices tables.old tables.new }
{
    match (quantifier, bound) {
        (Quantifier::Some, Bound::AtMost(c)) => some_most(paths, f, c, g, tables, holds),
        (Quantifier::Some, Bound::AtLeast(c)) => some_least(paths, f, c, g, tables, holds),
        (Quantifier::All, Bound::AtMost(c)) => each_most(paths, f, c, g, tables, holds),
        (Quantifier::All, Bound::AtLeast(c)) => each_least(paths, f, c, g, tables, holds),
    }
}

// Where a line holds, from the columns of the lines before it.
fn line_set(paths: &Paths, line: Line, sheet: &[u32], tables: &mut Tables, holds: &mut StageSet)
    requires formed { Formed most_lines line }
    requires sheet { stage_count paths.now ≤ length sheet.now }
    requires ready { AreReady (stage_count paths.now) tables.old }
    ensures is { listed (stage_count paths.now) holds.new
        ≡ line_list (timed paths.now) (column (stage_count paths.now) sheet.now) line }
    ensures spent { AreSpent (stage_count paths.now) tables.old tables.new }
    ensures slices { SameSlices tables.old tables.new }
{
    let n = paths.stages.len();
    match line {
        Line::One => holds.fill(n, |s| is_open(paths, s)),
        Line::Letter(letter) => holds.fill(n, |s| {
            is_open(paths, s) && has_mark(paths, s, letter)
        }),
        Line::Not(i) => holds.fill(n, |s| is_open(paths, s) && !bit_of(sheet[s], i)),
        Line::And(i, j) => holds.fill(n, |s| bit_of(sheet[s], i) && bit_of(sheet[s], j)),
        Line::Or(i, j) => holds.fill(n, |s| bit_of(sheet[s], i) || bit_of(sheet[s], j)),
        Line::Until {
            quantifier,
            left,
            bound,
            right,
        } => {
            let mut f = StageSet::none();
            read_column(n, left, sheet, &mut f);
            let mut g = StageSet::none();
            read_column(n, right, sheet, &mut g);
            until_set(paths, quantifier, &f, bound, &g, tables, holds);
        }
    }
}

// The line numbered k, and its column.
fn add_line(paths: &Paths, k: usize, line: Line, sheet: &mut [u32], tables: &mut Tables)
    requires number { k < most_lines }
    requires formed { Formed most_lines line }
    requires sheet { stage_count paths.now ≤ length sheet.old }
    requires below { Below (stage_count paths.now) k sheet.old }
    requires ready { AreReady (stage_count paths.now) tables.old }
    ensures added { Added (stage_count paths.now) k
        (at (line_list (timed paths.now) (column (stage_count paths.now) sheet.old) line))
        sheet.old sheet.new }
    ensures above { RestKept (stage_count paths.now) sheet.old sheet.new }
    ensures spent { AreSpent (stage_count paths.now) tables.old tables.new }
    ensures slices { SameSlices tables.old tables.new }
{
    let mut holds = StageSet::none();
    line_set(paths, line, sheet, tables, &mut holds);
    write_column(paths.stages.len(), k, &holds, sheet);
}

// Names for each line the stages at which it holds.
pub fn check_lines(paths: &Paths, lines: &[Line], sheet: &mut [u32], tables: &mut Tables)
    requires sound { Sound (timed paths.now) }
    requires lines { length lines.now ≤ most_lines }
    requires formed { WellFormed lines.now }
    requires sheet { stage_count paths.now ≤ length sheet.old }
    requires room { HaveRoom (stage_count paths.now) tables.old }
    ensures names { Names (prog paths.now.stages.now paths.now.moves.now) lines.now
        sheet.old sheet.new }
    ensures spent { AreSpent (stage_count paths.now) tables.old tables.new }
    ensures slices { SameSlices tables.old tables.new }
{
    let n = paths.stages.len();
    sheet[..n].fill(0);
    tables.clear(n);
    for (k, line) in lines.iter().enumerate() {
        add_line(paths, k, *line, sheet, tables);
    }
}
