//! The namespaces and the moment of a cluster that stands.
ghost use Rattle.std.specs.Prelude.{◌≡◌, ◌<◌, IfOk, IfErr};
ghost use Rattle.m3_model.specs.declared.limits.TheConstants.{TIME_END};
ghost use Rattle.session_writes.specs.session_net.Ready.{IsReady};
ghost use Rattle.cluster_members.specs.Steps.{SetsRules, at_moment, with_space, IsMovePlanned, IsSpacePlanned, MaySetRules, RefusesMove, RefusesSpace};

use crate::clock::tick;
use crate::members::Members;
use crate::spaces::namespace_position;
use m3_model::limits::MOST_NAMESPACES;
use m3_model::{Answer, Duplicate, Memory, Rules, Space};
use m3_outside::Disk;
use std::alloc::Global;
use std::mem::replace;

// So many events setting the rules adds: an Ask, and the Clock.
const EVENTS: u64 = 2;

// The rules with one more namespace.
fn with_space(alloc: Global, rules: &Rules, space: Space) -> Result<Rules, Memory>
    ensures { IfOk result (λ made. made ≡ with_space space rules.entry.now) }
{
    let mut made = rules.copy(alloc)?;
    match made.spaces.push(space) {
        Ok(()) => Ok(made),
        Err(_) => Err(Memory),
    }
}

// The rules at another moment.
fn at_moment(alloc: Global, rules: &Rules, now: u64) -> Result<Rules, Memory>
    ensures { IfOk result (λ made. made ≡ at_moment now rules.entry.now) }
{
    let spaces = rules.spaces.copy(alloc)?;
    Ok(Rules { now, spaces })
}

impl<D: Disk> Members<D> {
    /// The rules with one more namespace, whose blocks have at least the size 1: a Clock of them may come. Nothing changes.
    ///
    /// # Errors
    ///
    /// The answer. `Order` says that its name is there, and `Limit` that there are as many as may be; then `Full` that the list has no
    /// room, and `Memory` that memory was wanted.
    pub fn plan_space(&self, alloc: Global, space: Space) -> Result<Rules, Answer>
        requires sized { 0 < space.block }
        requires ready { IsReady self.now.net.state self.now.net.replicas self.now.net.bag }
        ensures planned { IfOk result (IsSpacePlanned self.now space) }
        ensures refused { IfErr result (RefusesSpace self.now space) }
    {
        let spaces = self.net.state.rules.spaces.as_slice();
        if namespace_position(spaces, space.name.as_str()).is_some() {
            return Err(Answer::Order);
        }
        if spaces.len() >= MOST_NAMESPACES {
            return Err(Answer::Limit {
                limit: MOST_NAMESPACES as u64,
            });
        }
        if !self.net.replicas.has_room(EVENTS) {
            return Err(Answer::Full);
        }
        match with_space(alloc, &self.net.state.rules, space) {
            Ok(rules) => Ok(rules),
            Err(_) => Err(Answer::Memory),
        }
    }

    /// The rules at this moment: a Clock of them may come. Nothing changes.
    ///
    /// # Errors
    ///
    /// The answer. `Clock` says that the moment would fall; then `Full` that the list has no room, and `Memory` that memory was wanted.
    pub fn plan_moment(&self, alloc: Global, now: u64) -> Result<Rules, Answer>
        requires time { now < TIME_END }
        requires ready { IsReady self.now.net.state self.now.net.replicas self.now.net.bag }
        ensures planned { IfOk result (IsMovePlanned self.now now) }
        ensures refused { IfErr result (RefusesMove self.now now) }
    {
        let moment = self.net.state.rules.now;
        if now < moment {
            return Err(Answer::Clock { now: moment });
        }
        if !self.net.replicas.has_room(EVENTS) {
            return Err(Answer::Full);
        }
        match at_moment(alloc, &self.net.state.rules, now) {
            Ok(rules) => Ok(rules),
            Err(_) => Err(Answer::Memory),
        }
    }

    /// Sets the rules, which were planned, by a Clock of the list. Takes no memory.
    pub fn set_rules(&mut self, rules: Rules)
        requires ready { IsReady self.old.net.state self.old.net.replicas self.old.net.bag }
        requires may { MaySetRules self.old rules }
        ensures ready { IsReady self.new.net.state self.new.net.replicas self.new.net.bag }
        ensures sets { SetsRules D.state rules self.old self.new }
    {
        tick(&mut self.net.replicas, &rules);
        drop(replace(&mut self.net.state.rules, rules));
    }
}
