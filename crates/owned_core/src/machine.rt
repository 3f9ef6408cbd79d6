//! The owned core as a small machine that runs: a state, and the six events on it.

ghost use Rattle.std.specs.Prelude.{◌≡◌, ◌<◌, ◌%◌, ◌==◌, not, map, filter, OnOk, IfOk};
ghost use Rattle.std.specs.List.{list_any, list_all};
ghost use Rattle.owned_core.specs.Slots as slots;
ghost use Rattle.owned_core.specs.Owned as owned;
ghost use Rattle.owned_core.specs.Events as events;
ghost use Rattle.owned_core.specs.Machine.{setting_of, state_of, due_of, with_one, at_stage};
ghost use Rattle.trace_types.specs.Rules as rules;

use crate::event::Event;
use crate::plan::{Due, Plan};
use crate::slot::{Slot, Stage, Standing, Want};
use std::alloc::{AllocError, Global};

/// One pair of the list of a sweeper: the object was forwarded to the place.
#[derive(Clone, Copy, Debug)]
pub struct Entry {
    /// The owner of the object.
    pub sweeper: u64,
    /// The object.
    pub object: u64,
    /// Its new place.
    pub place: u64,
}

/// The lists of all sweepers, what of them is unswept, and the slots.
#[derive(Drop)]
pub struct Machine {
    /// What was forwarded.
    pub own: Vec<Entry>,
    /// The objects in the lists that are unswept.
    pub unswept: Vec<u64>,
    /// Each slot with its stage.
    pub slots: Vec<Standing>,
}

/// Whether a Keep slot is wanted.
fn is_keep(want: Want) -> bool
    ensures { result ≡ slots.is_keep want }
{
    match want {
        Want::Keep => true,
        Want::Watch => false,
    }
}

/// Whether the two are one slot.
fn same_slot(a: Slot, b: Slot) -> bool
    ensures { result ≡ slots.same_slot a b }
{
    let want = if is_keep(a.want) {
        is_keep(b.want)
    } else {
        !is_keep(b.want)
    };
    let place = if a.has_place {
        b.has_place
    } else {
        !b.has_place
    };
    a.target == b.target && want && a.name == b.name && a.holder == b.holder && place
}

/// Whether the stage is Asked.
fn is_asked(stage: Stage) -> bool
    ensures { result ≡ slots.is_asked stage }
{
    matches!(stage, Stage::Asked)
}

/// Whether the stage is Heard.
fn is_heard(stage: Stage) -> bool
    ensures { result ≡ slots.is_heard stage }
{
    matches!(stage, Stage::Heard)
}

/// Whether the stage is Fixed.
fn is_fixed(stage: Stage) -> bool
    ensures { result ≡ slots.is_fixed stage }
{
    matches!(stage, Stage::Fixed(_))
}

/// Whether the holder was told this place.
fn is_told_at(stage: Stage, place: u64) -> bool
    ensures { result ≡ slots.is_told_at stage place }
{
    match stage {
        Stage::Told(told) => place == told,
        _ => false,
    }
}

/// Whether the object is in the list.
fn has(objects: &[u64], x: u64) -> bool
    ensures { result ≡ rules.has objects.now x }
{
    objects.iter().any(|y| *y == x)
}

/// Takes the object out of the list.
fn remove(objects: &mut Vec<u64>, x: u64)
    ensures { objects.new.items ≡ filter (λ y. not (y == x)) objects.old.items }
{
    objects.retain(|y| *y != x);
}

/// Whether the slot is there, at any stage.
fn is_there(standings: &[Standing], a: Slot) -> bool
    ensures { result ≡ owned.is_there standings.now a }
{
    standings.iter().any(|t| same_slot(t.slot, a))
}

/// Whether it is this Watch slot, and fixed.
fn is_fixed_watch(a: Slot, t: Standing) -> bool
    ensures { result ≡ owned.is_fixed_watch a t }
{
    same_slot(t.slot, a) && !is_keep(t.slot.want) && is_fixed(t.stage)
}

/// Whether it is a Keep slot of the object, and heard.
fn is_heard_keep(x: u64, t: Standing) -> bool
    ensures { result ≡ events.is_heard_keep x t }
{
    is_keep(t.slot.want) && t.slot.target == x && is_heard(t.stage)
}

/// A new slot.
fn begun(plan: &Plan, slot: Slot) -> Standing
    requires { 0 < plan.now.sweepers }
    ensures { result ≡ owned.begun (setting_of plan.now) slot }
{
    let stage = if slot.target % plan.sweepers == slot.holder {
        Stage::Heard
    } else {
        Stage::Asked
    };
    Standing { slot, stage }
}

impl Machine {
    /// Whether the object is in a list.
    fn is_in_list(&self, x: u64) -> bool
        ensures { result ≡ owned.in_list (state_of self.now) x }
    {
        self.own.iter().any(|e| e.object == x)
    }

    /// Whether the place is in a list.
    fn is_taken(&self, p: u64) -> bool
        ensures { result ≡ owned.is_taken (state_of self.now) p }
    {
        self.own.iter().any(|e| e.place == p)
    }

    /// Whether the pair is in the list of the sweeper.
    fn is_listed(&self, k: u64, x: u64, p: u64) -> bool
        ensures { result ≡ owned.is_listed (state_of self.now) k x p }
    {
        self.own
            .iter()
            .any(|e| e.sweeper == k && e.object == x && e.place == p)
    }

    /// Whether the Watch slot is there and fixed.
    fn has_fixed_watch(&self, a: Slot) -> bool
        ensures { result ≡ list_any (owned.is_fixed_watch a) self.now.slots.items }
    {
        self.slots.iter().any(|t| is_fixed_watch(a, *t))
    }

    /// Whether a Keep slot of the object is heard.
    fn has_heard_keep(&self, x: u64) -> bool
        ensures { result ≡ list_any (events.is_heard_keep x) self.now.slots.items }
    {
        self.slots.iter().any(|t| is_heard_keep(x, *t))
    }

    /// Whether the watched premise is met.
    fn is_met(&self, plan: &Plan, a: Slot) -> bool
        ensures { result ≡ owned.is_met (setting_of plan.now) (state_of self.now) a }
    {
        has(&plan.older, a.target) || self.has_fixed_watch(a)
    }

    /// Whether each of the watched premises is met.
    fn meets_all(&self, plan: &Plan, watched: &[Slot]) -> bool
        ensures { result ≡ list_all (owned.is_met (setting_of plan.now) (state_of self.now)) watched.now }
    {
        watched.iter().all(|a| self.is_met(plan, *a))
    }

    /// Whether the member is met.
    fn is_opened(&self, plan: &Plan, member: Option<u64>) -> bool
        ensures { result ≡ owned.is_opened (setting_of plan.now) (state_of self.now) member }
    {
        match member {
            None => true,
            Some(x) => has(&plan.older, x) || self.is_in_list(x) && !has(&self.unswept, x),
        }
    }

    /// Whether the slot is due.
    fn is_due(&self, plan: &Plan, due: &Due) -> bool
        ensures { result ≡ owned.is_due (setting_of plan.now) (state_of self.now) (due_of due.now) }
    {
        !has(&plan.older, due.slot.target)
            && self.is_opened(plan, due.member)
            && self.meets_all(plan, &due.watched)
    }

    /// Whether the place is one that the object may have.
    fn is_place_for(&self, plan: &Plan, x: u64, p: u64) -> bool
        ensures { result ≡ events.is_place_for (setting_of plan.now) (state_of self.now) x p }
    {
        if has(&plan.staying, x) {
            p == x
        } else {
            !self.is_taken(p) && !(p < plan.first_new)
        }
    }

    /// Whether the sweeper can forward the object to the place.
    fn may_forward(&self, plan: &Plan, k: u64, x: u64, p: u64) -> bool
        requires { 0 < plan.now.sweepers }
        ensures { result ≡ events.may_forward (setting_of plan.now) (state_of self.now) k x p }
    {
        x % plan.sweepers == k
            && !self.is_in_list(x)
            && self.has_heard_keep(x)
            && self.is_place_for(plan, x, p)
    }

    /// The slot comes last where it is due and not there. Takes memory.
    fn add_if_due(&mut self, plan: &Plan, due: &Due) -> Result<(), AllocError>
        requires { 0 < plan.now.sweepers }
        ensures { OnOk result (state_of self.new ≡ with_one (setting_of plan.now) (state_of self.old) (due_of due.now)) }
    {
        if self.is_due(plan, due) && !is_there(&self.slots, due.slot) {
            self.slots.push(begun(plan, due.slot))?;
        }
        Ok(())
    }

    /// Each slot that is due and not there comes last. Takes memory.
    fn add_due(&mut self, plan: &Plan) -> Result<(), AllocError>
        requires { 0 < plan.now.sweepers }
        ensures { OnOk result (state_of self.new ≡ owned.with_slots (setting_of plan.now) (state_of self.old)) }
    {
        for i in 0..plan.dues.len() {
            self.add_if_due(plan, &plan.dues[i])?;
        }
        Ok(())
    }

    /// Forwards, where that can happen.
    fn forward(&mut self, plan: &Plan, k: u64, x: u64, p: u64) -> Result<(), AllocError>
        requires { 0 < plan.now.sweepers }
        ensures { OnOk result (state_of self.new ≡ events.happens (setting_of plan.now) (state_of self.old) (events.Forward k x p)) }
    {
        if self.may_forward(plan, k, x, p) {
            self.own.push(Entry {
                sweeper: k,
                object: x,
                place: p,
            })?;
            self.unswept.push(x)?;
        }
        Ok(())
    }

    /// Sweeps an object, where that can happen.
    fn sweep(&mut self, plan: &Plan, k: u64, x: u64) -> Result<(), AllocError>
        requires { 0 < plan.now.sweepers }
        ensures { OnOk result (state_of self.new ≡ events.happens (setting_of plan.now) (state_of self.old) (events.Sweep k x)) }
    {
        if x % plan.sweepers == k && has(&self.unswept, x) {
            remove(&mut self.unswept, x);
            self.add_due(plan)?;
        }
        Ok(())
    }

    /// The slots after an answer. Takes memory.
    fn slots_after_answer(
        &self,
        alloc: Global,
        plan: &Plan,
        k: u64,
        a: Slot,
        p: u64,
    ) -> Result<Vec<Standing>, AllocError>
        requires { 0 < plan.now.sweepers }
        ensures { IfOk result (λ v. v.items ≡ map (at_stage (events.after_answer (setting_of plan.now) (state_of self.now) k a p)) self.now.slots.items) }
    {
        self.slots
            .iter()
            .map(|t| Standing {
                slot: t.slot,
                stage: self.after_answer(plan, k, a, p, *t),
            })
            .collect(alloc)
    }

    /// Answers a slot, where that can happen.
    fn answer(
        &mut self,
        alloc: Global,
        plan: &Plan,
        k: u64,
        a: Slot,
        p: u64,
    ) -> Result<(), AllocError>
        requires { 0 < plan.now.sweepers }
        ensures { OnOk result (state_of self.new ≡ events.happens (setting_of plan.now) (state_of self.old) (events.Answer k a p)) }
    {
        let slots = self.slots_after_answer(alloc, plan, k, a, p)?;
        self.slots = slots;
        Ok(())
    }

    /// The slots after the event of that name. Takes memory.
    fn slots_after_fix(
        &self,
        alloc: Global,
        k: u64,
        a: Slot,
        p: u64,
    ) -> Result<Vec<Standing>, AllocError>
        ensures { IfOk result (λ v. v.items ≡ map (at_stage (events.after_fix k a p)) self.now.slots.items) }
    {
        self.slots
            .iter()
            .map(|t| Standing {
                slot: t.slot,
                stage: after_fix(k, a, p, *t),
            })
            .collect(alloc)
    }

    /// Fixes a slot, where that can happen.
    fn fix(&mut self, alloc: Global, plan: &Plan, k: u64, a: Slot, p: u64) -> Result<(), AllocError>
        requires { 0 < plan.now.sweepers }
        ensures { OnOk result (state_of self.new ≡ events.happens (setting_of plan.now) (state_of self.old) (events.Fix k a p)) }
    {
        let slots = self.slots_after_fix(alloc, k, a, p)?;
        self.slots = slots;
        self.add_due(plan)?;
        Ok(())
    }

    /// The slots after the event of that name. Takes memory.
    fn slots_after_delivery(&self, alloc: Global, a: Slot) -> Result<Vec<Standing>, AllocError>
        ensures { IfOk result (λ v. v.items ≡ map (at_stage (events.after_delivery a)) self.now.slots.items) }
    {
        self.slots
            .iter()
            .map(|t| Standing {
                slot: t.slot,
                stage: after_delivery(a, *t),
            })
            .collect(alloc)
    }

    /// Delivers a slot, where that can happen.
    fn deliver(&mut self, alloc: Global, plan: &Plan, a: Slot) -> Result<(), AllocError>
        requires { 0 < plan.now.sweepers }
        ensures { OnOk result (state_of self.new ≡ events.happens (setting_of plan.now) (state_of self.old) (events.Deliver a)) }
    {
        let slots = self.slots_after_delivery(alloc, a)?;
        self.slots = slots;
        Ok(())
    }

    /// The slots after the event of that name. Takes memory.
    fn slots_after_learning(
        &self,
        alloc: Global,
        plan: &Plan,
        k: u64,
        a: Slot,
        p: u64,
    ) -> Result<Vec<Standing>, AllocError>
        requires { 0 < plan.now.sweepers }
        ensures { IfOk result (λ v. v.items ≡ map (at_stage (events.after_learning (setting_of plan.now) (state_of self.now) k a p)) self.now.slots.items) }
    {
        self.slots
            .iter()
            .map(|t| Standing {
                slot: t.slot,
                stage: self.after_learning(plan, k, a, p, *t),
            })
            .collect(alloc)
    }

    /// Learns the place of a slot, where that can happen.
    fn learn(
        &mut self,
        alloc: Global,
        plan: &Plan,
        k: u64,
        a: Slot,
        p: u64,
    ) -> Result<(), AllocError>
        requires { 0 < plan.now.sweepers }
        ensures { OnOk result (state_of self.new ≡ events.happens (setting_of plan.now) (state_of self.old) (events.Learn k a p)) }
    {
        let slots = self.slots_after_learning(alloc, plan, k, a, p)?;
        self.slots = slots;
        Ok(())
    }

    /// Does the event, where it can happen, and else nothing. What is newly due gets its slot. Takes
    /// memory; refused, the machine is not to be used any more.
    pub fn apply(&mut self, alloc: Global, plan: &Plan, event: Event) -> Result<(), AllocError>
        requires { 0 < plan.now.sweepers }
        ensures { OnOk result (state_of self.new ≡ events.happens (setting_of plan.now) (state_of self.old) event) }
    {
        match event {
            Event::Forward {
                sweeper,
                object,
                place,
            } => self.forward(plan, sweeper, object, place),
            Event::Sweep { sweeper, object } => self.sweep(plan, sweeper, object),
            Event::Answer {
                sweeper,
                slot,
                place,
            } => self.answer(alloc, plan, sweeper, slot, place),
            Event::Fix {
                sweeper,
                slot,
                place,
            } => self.fix(alloc, plan, sweeper, slot, place),
            Event::Deliver { slot } => self.deliver(alloc, plan, slot),
            Event::Learn {
                sweeper,
                slot,
                place,
            } => self.learn(alloc, plan, sweeper, slot, place),
        }
    }

    /// The first phase begins: nothing is in a list, and what is due has its slot. Takes memory.
    pub fn start(alloc: Global, plan: &Plan) -> Result<Machine, AllocError>
        requires { 0 < plan.now.sweepers }
        ensures { IfOk result (λ m. state_of m ≡ owned.with_slots (setting_of plan.now) owned.nothing_yet) }
    {
        let mut machine = Machine {
            own: Vec::new(alloc),
            unswept: Vec::new(alloc),
            slots: Vec::new(alloc),
        };
        machine.add_due(plan)?;
        Ok(machine)
    }

    /// How far the slot is after an answer.
    fn after_answer(&self, plan: &Plan, k: u64, a: Slot, p: u64, t: Standing) -> Stage
        requires { 0 < plan.now.sweepers }
        ensures { result ≡ events.after_answer (setting_of plan.now) (state_of self.now) k a p t }
    {
        let may = same_slot(t.slot, a)
            && is_heard(t.stage)
            && t.slot.has_place
            && t.slot.target % plan.sweepers == k
            && self.is_listed(k, t.slot.target, p);
        if may {
            if t.slot.holder == k {
                Stage::Told(p)
            } else {
                Stage::Answered(p)
            }
        } else {
            t.stage
        }
    }

    /// How far the slot is after its place was learnt.
    fn after_learning(&self, plan: &Plan, k: u64, a: Slot, p: u64, t: Standing) -> Stage
        requires { 0 < plan.now.sweepers }
        ensures { result ≡ events.after_learning (setting_of plan.now) (state_of self.now) k a p t }
    {
        let may = same_slot(t.slot, a)
            && t.slot.holder == k
            && is_keep(t.slot.want)
            && is_asked(t.stage)
            && self.is_listed(t.slot.target % plan.sweepers, t.slot.target, p);
        if may { Stage::Told(p) } else { t.stage }
    }
}

/// How far the slot is after it was fixed.
fn after_fix(k: u64, a: Slot, p: u64, t: Standing) -> Stage
    ensures { result ≡ events.after_fix k a p t }
{
    if same_slot(t.slot, a) && t.slot.holder == k && is_told_at(t.stage, p) {
        Stage::Fixed(p)
    } else {
        t.stage
    }
}

/// How far the slot is after it was delivered.
fn after_delivery(a: Slot, t: Standing) -> Stage
    ensures { result ≡ events.after_delivery a t }
{
    if !same_slot(t.slot, a) {
        return t.stage;
    }
    match t.stage {
        Stage::Asked => Stage::Heard,
        Stage::Answered(p) => Stage::Told(p),
        stage => stage,
    }
}
