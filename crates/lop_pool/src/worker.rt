//! A worker: a judge with the rooms for what it is handed and what it finds.
ghost use Rattle.std.specs.Prelude.{◌≡◌, vec_len, IfOk, All};

use crate::judged_core::JudgedCore;
use crate::parcel::Parcel;
use lop_node::Judge;
use lop_turn::turn::Pass;
use std::alloc::{AllocError, Global};

/// How many nodes a worker takes at one turn, at most.
pub const BATCH: usize = 8;

/// A worker of the pool.
#[derive(Drop)]
pub struct Worker<J: Judge> {
    pub judge: J,
    /// Its pass, while a round runs.
    pub pass: Option<Pass<JudgedCore<J>>>,
    /// Eight of them.
    pub parcels: Vec<Parcel>,
    /// How many of the parcels, from the first on, have a result that is still to be reported.
    pub held: usize,
    /// How many tickets it has judged in this search.
    pub judged: u32,
}

impl<J: Judge> Worker<J> {
    ghost use Rattle.lop_pool.specs.Workers.{ParcelFits, WorkerFits};

    /// Eight parcels for n objects.
    fn parcels(alloc: Global, n: u16) -> Result<Vec<Parcel>, AllocError>
        ensures len { IfOk result (λ ps. vec_len ps ≡ 8) }
        ensures fits { IfOk result (λ ps. All (ParcelFits n) ps.items) }
    {
        let mut parcels = Vec::new(alloc);
        for _ in 0..BATCH {
            parcels.push(Parcel::new(alloc, n)?)?;
        }
        Ok(parcels)
    }

    /// A worker with this judge and rooms for n objects.
    fn new(alloc: Global, judge: J, n: u16) -> Result<Self, AllocError>
        requires { J.objects judge ≡ n }
        ensures { IfOk result (λ w. WorkerFits J.objects n w) }
    {
        Ok(Worker {
            judge,
            pass: None,
            parcels: Self::parcels(alloc, n)?,
            held: 0,
            judged: 0,
        })
    }

    /// A worker for each judge.
    pub fn each(alloc: Global, n: u16, judges: Vec<J>) -> Result<Vec<Worker<J>>, AllocError>
        requires { All (λ j. J.objects j ≡ n) judges.items }
        ensures len { IfOk result (λ ws. vec_len ws ≡ vec_len judges) }
        ensures fits { IfOk result (λ ws. All (WorkerFits J.objects n) ws.items) }
    {
        let mut judges = judges;
        let mut workers = Vec::new(alloc);
        while let Some(judge) = judges.pop() {
            workers.push(Worker::new(alloc, judge, n)?)?;
        }
        Ok(workers)
    }
}
