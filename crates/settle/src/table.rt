// For each stage the choice over all walks to a goal: by a few passes over all moves where these settle it, and else by
// a queue of the stages whose value changed: as such a stage is taken out, what is said of it goes back over the moves
// that enter it.
ghost use Rattle.std.specs.Prelude.{◌≡◌, ◌*◌, ◌<◌, ◌≤◌, ◌⊎◌, true, false, length, slice_index_or, OnOk};
ghost use Rattle.program.specs.Meaning.{no_move};
ghost use Rattle.tally.specs.Walks.{among, tallied};
ghost use Rattle.tally.specs.Rounds.{entry, KeptFrom};
ghost use Rattle.tally.specs.Sweeps.{InPlace, Still, OfAll};
ghost use Rattle.tally.specs.Tables.{Filled};
ghost use Rattle.program.specs.declared.End.TheVariants.{Enters};
ghost use Rattle.settle.specs.Chains.{end_at, Linked};
ghost use Rattle.settle.specs.Queues.{Waits, Lined, AllWait, PutsIn};
ghost use Rattle.settle.specs.Tended.{Tended, Due, StillPartly, Settles};

use crate::endless::Sort;
use crate::links::Chained;
use crate::queue::{Full, Queue};
use crate::removal::Removal;
use program::{MOST_STAGES, Move};
use tally::Tally;
use tally::rows::{begin_row, clear, tallies};
use tally::walks::Walks;

// A stage is taken out once a round at most. As many rounds as there are stages say all, and after one more none waits.
const MOST_TURNS: usize = MOST_STAGES * (MOST_STAGES + 1) + 1;

// So many passes, over so many moves, take no more time than it takes to make a queue and to line it up.
const FEW_PASSES: usize = 8;

const FEW_MOVES: usize = 1024;

// Why the queue does not settle a table.
#[derive(Clone, Copy, PartialEq, Eq, Debug)]
enum Unsettled {
    QueueFull,
    TurnsUsedUp,
}

impl From<Full> for Unsettled {
    fn from(_full: Full) -> Unsettled {
        Unsettled::QueueFull
    }
}

// Walks by the moves of a program, which are chained.
#[derive(Clone, Copy)]
struct ChainedWalks<'w, 'c, 'l> {
    walks: Walks<'w>,
    chained: &'c Chained<'l>,
    ghost stages: { walks.stages ≡ chained.now.stages },
    ghost linked: { Linked Enters walks.stages walks.moves.now chained.now.chains.now.enters },
}

// Sets the words of the goals that are to be passed to 0.
fn leave_last(pass: &[u32], last: &mut [u32]) {
    for (goal, word) in last.iter_mut().zip(pass) {
        if *word > 0 {
            *goal = 0;
        }
    }
}

// Adds to what the table says of the stage that a move leaves what it says of the stage that the move enters, with the
// move's minutes before it. Answers whether that changed something.
fn pour<T: Tally>(m: Move, pass: &[u32], table: &mut [T]) -> bool
    requires pass { m.leaves < length pass.now }
    requires room { (m.leaves < length table.old) × (m.enters < length table.old) }
    ensures place { InPlace T.Tally.algebra (among pass.now) m (entry T.Tally.algebra table.old)
        (entry T.Tally.algebra table.new) }
    ensures told { result ≡ false → entry T.Tally.algebra table.new m.leaves
        ≡ entry T.Tally.algebra table.old m.leaves }
{
    let leaves = usize::from(m.leaves);
    if pass[leaves] == 0 {
        return false;
    }
    let had = table[leaves];
    let more = table[usize::from(m.enters)].before(m.minutes);
    let both = had.choice(more);
    // Written in any case: as a branch it would often be foretold wrongly.
    table[leaves] = both;
    !had.same(both)
}

// Takes what the table says back over each move once, the last one first, as programs list their moves forward. Answers
// whether that changed something.
fn pour_all<T: Tally>(walks: &Walks, table: &mut [T]) -> bool
    requires room { walks.now.stages ≤ length table.old }
    ensures partly { StillPartly T.Tally.algebra walks.now.stages walks.now.moves.now
        (among walks.now.pass.now) (entry T.Tally.algebra table.old) (entry T.Tally.algebra table.new) }
    ensures above { KeptFrom T.Tally.algebra walks.now.stages table.old table.new }
    ensures still { result ≡ false → Still T.Tally.algebra walks.now.moves.now
        (among walks.now.pass.now) (entry T.Tally.algebra table.new) }
{
    let mut changed = false;
    for k in (0..walks.moves.len()).rev() {
        if pour(walks.moves[k], walks.pass, table) {
            changed = true;
        }
    }
    changed
}

// Fills the first row by a few passes over all moves. Answers true only if they come to the choice over all walks.
fn by_passes<T: Tally>(walks: &Walks, table: &mut [T]) -> bool
    requires { walks.now.stages ≤ length table.old }
    ensures above { KeptFrom T.Tally.algebra walks.now.stages table.old table.new }
    ensures all { result ≡ true → OfAll T.Tally.algebra walks.now.stages walks.now.moves.now
        (among walks.now.pass.now) (among walks.now.goals.now) (entry T.Tally.algebra table.new) }
{
    begin_row(0, walks.stages, walks.goals, table);
    for _pass in 0..FEW_PASSES {
        if !pour_all(walks, table) {
            return true;
        }
    }
    false
}

impl ChainedWalks<'_, '_, '_> {
    // Takes what the table says back over a move. Where that changes something, the stage that it leaves is put into
    // the queue.
    fn pour_back<T: Tally>(&self, k: usize, table: &mut [T], queue: &mut Queue) -> Result<(), Full>
        requires real { k < length self.now.walks.moves.now }
        requires room { self.now.walks.stages ≤ length table.old }
        ensures place { InPlace T.Tally.algebra (among self.now.walks.pass.now)
            (slice_index_or self.now.walks.moves.now k no_move)
            (entry T.Tally.algebra table.old) (entry T.Tally.algebra table.new) }
        ensures puts { PutsIn (slice_index_or self.now.walks.moves.now k no_move).leaves queue.old queue.new }
        ensures waits { let leaves = (slice_index_or self.now.walks.moves.now k no_move).leaves in OnOk result
            ((entry T.Tally.algebra table.new leaves ≡ entry T.Tally.algebra table.old leaves)
            ⊎ Waits queue.new leaves) }
    {
        let m = self.walks.moves[k];
        if pour(m, self.walks.pass, table) {
            return queue.put(usize::from(m.leaves));
        }
        Ok(())
    }

    // Takes what the table says of a stage back over the moves that enter it.
    fn pull<T: Tally>(&self, stage: usize, table: &mut [T], queue: &mut Queue) -> Result<(), Full>
        requires stage { stage < MOST_STAGES }
        requires room { self.now.walks.stages ≤ length table.old }
        requires tended { Tended T.Tally.algebra self.now.walks.moves.now (among self.now.walks.pass.now)
            (entry T.Tally.algebra table.old)
            (λ k. Due self.now.walks.moves.now queue.old k ⊎ (end_at Enters self.now.walks.moves.now k ≡ stage)) }
        ensures partly { StillPartly T.Tally.algebra self.now.walks.stages self.now.walks.moves.now
            (among self.now.walks.pass.now) (entry T.Tally.algebra table.old) (entry T.Tally.algebra table.new) }
        ensures above { KeptFrom T.Tally.algebra self.now.walks.stages table.old table.new }
        ensures tended { OnOk result (Tended T.Tally.algebra self.now.walks.moves.now
            (among self.now.walks.pass.now) (entry T.Tally.algebra table.new)
            (Due self.now.walks.moves.now queue.new)) }
    {
        let enters = &self.chained.chains.enters;
        let mut link = enters.first[stage];
        while let Some(number) = link {
            let k = usize::from(number);
            self.pour_back(k, table, queue)?;
            link = enters.next[k];
        }
        Ok(())
    }

    // Takes stages out of the queue until none waits.
    fn flow<T: Tally>(&self, table: &mut [T], queue: &mut Queue) -> Result<(), Unsettled>
        requires room { self.now.walks.stages ≤ length table.old }
        requires tended { Tended T.Tally.algebra self.now.walks.moves.now (among self.now.walks.pass.now)
            (entry T.Tally.algebra table.old) (Due self.now.walks.moves.now queue.old) }
        ensures partly { StillPartly T.Tally.algebra self.now.walks.stages self.now.walks.moves.now
            (among self.now.walks.pass.now) (entry T.Tally.algebra table.old) (entry T.Tally.algebra table.new) }
        ensures above { KeptFrom T.Tally.algebra self.now.walks.stages table.old table.new }
        ensures still { OnOk result (Still T.Tally.algebra self.now.walks.moves.now
            (among self.now.walks.pass.now) (entry T.Tally.algebra table.new)) }
    {
        for _turn in 0..MOST_TURNS {
            let Some(stage) = queue.take() else {
                return Ok(());
            };
            self.pull(stage, table, queue)?;
        }
        Err(Unsettled::TurnsUsedUp)
    }

    // Puts the goals into the queue, first those that are not to be passed. Between them it puts the stages from which
    // no walk is endless within the set to pass, each behind all those that its moves enter: so it comes out when what
    // is said of those is settled, and need not come again. Where values stay, no stage comes again in any order.
    fn line_up<T: Tally>(&self, queue: &mut Queue) -> Result<(), Full>
        ensures lined { Lined self.now.walks.stages queue.old → Lined self.now.walks.stages queue.new }
        ensures wait { OnOk result (AllWait self.now.walks.stages (among self.now.walks.goals.now) queue.new) }
    {
        let n = self.walks.stages;
        if T::stays() {
            return queue.put_all(n, self.walks.goals);
        }
        let mut inner = [0; MOST_STAGES];
        let mut last = [0; MOST_STAGES];
        inner[..n].copy_from_slice(&self.walks.pass[..n]);
        last[..n].copy_from_slice(&self.walks.goals[..n]);
        leave_last(self.walks.pass, &mut last[..n]);
        queue.put_all(n, &last)?;
        let mut removal = Removal::none();
        removal.run(Sort::Any, self.chained, &mut inner);
        removal.put_gone(queue)?;
        queue.put_all(n, self.walks.goals)
    }

    // Fills the first row by the queue, with the choice over all walks.
    fn by_queue<T: Tally>(&self, table: &mut [T]) -> Result<(), Unsettled>
        requires { self.now.walks.stages ≤ length table.old }
        ensures above { KeptFrom T.Tally.algebra self.now.walks.stages table.old table.new }
        ensures all { OnOk result (OfAll T.Tally.algebra self.now.walks.stages self.now.walks.moves.now
            (among self.now.walks.pass.now) (among self.now.walks.goals.now) (entry T.Tally.algebra table.new)) }
    {
        let mut queue = Queue::empty();
        begin_row(0, self.walks.stages, self.walks.goals, table);
        self.line_up::<T>(&mut queue)?;
        self.flow(table, &mut queue)
    }
}

// Fills the table with the choices over all walks of at most n moves, which are those over all walks.
pub fn tally_all<T: Tally>(chained: &Chained, pass: &[u32], goals: &[u32], table: &mut [T])
    requires pass { chained.now.stages ≤ length pass.now }
    requires goals { chained.now.stages ≤ length goals.now }
    requires room { 4 * chained.now.stages ≤ length table.old }
    requires settles { Settles T.Tally.algebra chained.now.stages chained.now.moves.now
        (among pass.now) (among goals.now) }
    ensures { Filled T.Tally.algebra (tallied T.Tally.algebra chained.now.moves.now
        (among pass.now) (among goals.now) chained.now.stages) chained.now.stages table.old table.new }
{
    let stages = chained.stages;
    let walks = Walks {
        stages,
        moves: chained.moves,
        pass,
        goals,
    };
    if chained.moves.len() <= FEW_MOVES && by_passes(&walks, table) {
        clear(stages, 4 * stages, table);
        return;
    }
    match (ChainedWalks { walks, chained }).by_queue(table) {
        Ok(()) => clear(stages, 4 * stages, table),
        Err(Unsettled::QueueFull | Unsettled::TurnsUsedUp) => {
            tallies(&walks, stages as u16, table);
        }
    }
}
