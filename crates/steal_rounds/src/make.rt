//! The records of a round, made before its workers start.

ghost use Rattle.std.specs.Prelude.{◌≡◌, ◌≢◌, ℕ, ◌+◌, ◌-◌, ◌/◌, ◌<◌, ◌≤◌, length, IfOk};
ghost use Rattle.dist_table.specs.Tables.{TableView, PassView};
ghost use Rattle.steal_batches.specs.declared.deque.TheConstants.{MOST_ROOM};
ghost use Rattle.steal_rounds.specs.inside.Records.{AreBlank, AreHeld, AreIdle, AreMade, AreOffered, HaveRoom};

use crate::member::CrewMember;
use dist_table::{DistTable, Pass};
use round_core::StepGraph;
use std::alloc::{AllocError, Global};
use steal_batches::BatchDeque;

/// The records of a round: each worker with a pass, a deque and a thief of each other's deque. Batch b is offered to
/// worker b modulo the number of workers.
pub(crate) fn make_crew<G: StepGraph>(
    alloc: Global,
    table: &DistTable<G>,
    pass: &mut Pass,
    workers: u32,
    batches: u32,
) -> Result<Vec<CrewMember>, AllocError>
    requires pass { (pass.old.table ≡ table.now) }
    requires workers { (1 ≤ workers) × (workers ≤ batches) × (batches ≤ MOST_ROOM) }
    ensures same { pass.new ≡ pass.old }
    ensures made { IfOk result (λ crew. AreMade table.now pass.old workers batches crew.items) }
{
    let mut crew = blank_crew(alloc, table, pass, workers, (batches - 1) / workers + 1)?;
    offer_all(&mut crew, workers, batches);
    hire_all(&mut crew)?;
    Ok(crew)
}

/// Records with nothing offered and no thief.
fn blank_crew<G: StepGraph>(
    alloc: Global,
    table: &DistTable<G>,
    pass: &mut Pass,
    workers: u32,
    room: u32,
) -> Result<Vec<CrewMember>, AllocError>
    requires pass { (pass.old.table ≡ table.now) }
    requires room { (0 < room) × (room ≤ MOST_ROOM) }
    ensures same { pass.new ≡ pass.old }
    ensures count { IfOk result (λ crew. length crew.items ≡ workers) }
    ensures fresh { IfOk result (λ crew. AreBlank table.now pass.old crew.items
        × AreIdle crew.items × HaveRoom room crew.items) }
{
    let mut crew = Vec::with_capacity(alloc, workers as usize)?;
    for worker in 0..workers {
        let deque = BatchDeque::new(alloc, worker, room)?;
        let own = table.split(pass)?;
        crew.push(CrewMember {
            worker,
            pass: own,
            deque,
            thieves: Vec::new(alloc),
            notes: Vec::new(alloc),
            moves: 0,
            short: false,
        })?;
    }
    Ok(crew)
}

/// Offers each batch.
fn offer_all(crew: &mut Vec<CrewMember>, workers: u32, batches: u32)
    requires workers { (1 ≤ workers) × (length crew.old.items ≡ workers) × (1 ≤ batches) }
    requires room { HaveRoom ((batches - 1) / workers + 1) crew.old.items }
    ensures count { length crew.new.items ≡ length crew.old.items }
    ensures blank { (t : TableView) (p : PassView) →
        AreBlank t p crew.old.items → AreBlank t p crew.new.items }
    ensures idle { AreIdle crew.old.items → AreIdle crew.new.items }
    ensures offered { AreOffered batches crew.new.items }
{
    for batch in 0..batches {
        crew[(batch % workers) as usize].deque.offer(batch);
    }
}

/// Makes the thieves of each deque, those of the last one first.
fn hire_all(crew: &mut Vec<CrewMember>) -> Result<(), AllocError>
    requires few { length crew.old.items ≤ MOST_ROOM }
    requires idle { AreIdle crew.old.items }
    ensures count { IfOk result (λ _. length crew.new.items ≡ length crew.old.items) }
    ensures blank { IfOk result (λ _. (t : TableView) (p : PassView) →
        AreBlank t p crew.old.items → AreBlank t p crew.new.items) }
    ensures offered { IfOk result (λ _. (b : ℕ) →
        AreOffered b crew.old.items → AreOffered b crew.new.items) }
    ensures held { IfOk result (λ _. AreHeld 0 0 crew.new.items) }
{
    let mut victim = crew.len();
    while victim > 0 {
        victim -= 1;
        hire_of(crew, victim)?;
    }
    Ok(())
}

/// Makes the thieves of a deque.
fn hire_of(crew: &mut Vec<CrewMember>, victim: usize) -> Result<(), AllocError>
    requires few { length crew.old.items ≤ MOST_ROOM }
    requires below { victim < length crew.old.items }
    requires held { AreHeld (victim + 1) 0 crew.old.items }
    ensures count { IfOk result (λ _. length crew.new.items ≡ length crew.old.items) }
    ensures blank { IfOk result (λ _. (t : TableView) (p : PassView) →
        AreBlank t p crew.old.items → AreBlank t p crew.new.items) }
    ensures offered { IfOk result (λ _. (b : ℕ) →
        AreOffered b crew.old.items → AreOffered b crew.new.items) }
    ensures held { IfOk result (λ _. AreHeld victim 0 crew.new.items) }
{
    let mut worker = crew.len();
    while worker > 0 {
        worker -= 1;
        if worker == victim {
            continue;
        }
        hire(crew, victim, worker)?;
    }
    Ok(())
}

/// Makes a thief of a deque for a worker.
fn hire(crew: &mut Vec<CrewMember>, victim: usize, worker: usize) -> Result<(), AllocError>
    requires few { length crew.old.items ≤ MOST_ROOM }
    requires below { (victim < length crew.old.items)
        × (worker < length crew.old.items) × (worker ≢ victim) }
    requires held { AreHeld victim (worker + 1) crew.old.items }
    ensures count { IfOk result (λ _. length crew.new.items ≡ length crew.old.items) }
    ensures blank { IfOk result (λ _. (t : TableView) (p : PassView) →
        AreBlank t p crew.old.items → AreBlank t p crew.new.items) }
    ensures offered { IfOk result (λ _. (b : ℕ) →
        AreOffered b crew.old.items → AreOffered b crew.new.items) }
    ensures held { IfOk result (λ _. AreHeld victim worker crew.new.items) }
{
    let thief = crew[victim].deque.thief(worker as u32)?;
    crew[worker].thieves.push(thief)?;
    Ok(())
}
