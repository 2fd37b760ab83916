//! Lending jobs.
ghost use Rattle.std.specs.Prelude.{◌≡◌, ◌<◌, ◌++◌, length, option_map, option_to_list, IfOk, OnOk};
ghost use Rattle.bp_run.specs.Settling as settling;
ghost use Rattle.js_frames.specs.Places.{plain_ground};
ghost use Rattle.bp_floor.specs.inner.Entries.{entry_seen, handler_seen};
ghost use Rattle.bp_floor.specs.inner.Kept.{IsBelow, Running};
ghost use Rattle.bp_floor.specs.inner.TakenOut.{CanLend, Lends, AreOut, IsStarted};

use crate::{Entry, Handler, Seats, Wave};
use bp_log::{Memory, Options};
use bp_thread::Job;
use js_frames::Ground;
use js_program::Mode;
use js_value::copy;
use std::alloc::Global;

/// One more job, if there is one.
fn push_some(jobs: &mut Vec<Job>, job: Option<Job>) -> Result<(), Memory>
    ensures { OnOk result (jobs.new.items ≡ jobs.old.items ++ option_to_list job) }
{
    if let Some(job) = job {
        jobs.push(job)?;
    }
    Ok(())
}

impl Seats {
    /// The job of a handler.
    fn handler_job(
        &self,
        alloc: Global,
        ground: &Ground,
        options: Options,
        number: u32,
        handler: &Handler,
    ) -> Result<Job, Memory>
        requires { number < length self.now }
        ensures { IfOk result (λ j. IsStarted (plain_ground ground.now) options number
            (handler_seen handler.now).origin j) }
    {
        let name = self.name_of(number as usize).copy()?;
        let function = copy(&handler.function)?;
        let mut args = Vec::new(alloc);
        args.push(copy(&handler.argument)?)?;
        Job::start(
            alloc,
            ground,
            number,
            name,
            Mode::Handler,
            function,
            args,
            options.budget(),
        )
    }

    /// The job of the handler of a b-thread that is interrupted, if it set one.
    fn lend_handler(
        &self,
        alloc: Global,
        ground: &Ground,
        options: Options,
        number: u32,
        handler: &Option<Handler>,
    ) -> Result<Option<Job>, Memory>
        requires { number < length self.now }
        ensures { IfOk result (λ j. Lends (plain_ground ground.now) options
            (settling.Entry.Stops number (option_map handler_seen handler.now)) self.now self.now
            (option_to_list j)) }
    {
        match handler {
            None => Ok(None),
            Some(handler) => Ok(Some(self.handler_job(alloc, ground, options, number, handler)?)),
        }
    }

    /// The job of an entry, if it has a body. A b-thread's own is taken out.
    fn lend_one(
        &mut self,
        alloc: Global,
        ground: &Ground,
        options: Options,
        entry: &Entry,
    ) -> Result<Option<Job>, Memory>
        requires { IsBelow (length self.old) (entry_seen entry.now) }
        ensures { IfOk result (λ j. Lends (plain_ground ground.now) options
            (entry_seen entry.now) self.old self.new (option_to_list j)) }
    {
        match entry {
            Entry::Top => Ok(Some(Job::top(alloc, ground, options.budget())?)),
            Entry::Runs(number) => Ok(self.take(*number as usize)),
            Entry::Stops(number, handler) => {
                self.lend_handler(alloc, ground, options, *number, handler)
            }
        }
    }

    /// The jobs of what is to be run, in order.
    pub fn lend(
        &mut self,
        alloc: Global,
        ground: &Ground,
        options: Options,
        wave: &Wave,
    ) -> Result<Vec<Job>, Memory>
        requires { (r : Running) × CanLend r (plain_ground ground.now) options wave.now self.old }
        ensures { IfOk result (λ js. (r : Running) →
            CanLend r (plain_ground ground.now) options wave.now self.old →
            AreOut r wave.now js.items self.old self.new) }
    {
        let entries = wave.as_slice();
        let mut jobs = Vec::with_capacity(alloc, entries.len())?;
        for entry in entries {
            let job = self.lend_one(alloc, ground, options, entry)?;
            push_some(&mut jobs, job)?;
        }
        Ok(jobs)
    }
}
