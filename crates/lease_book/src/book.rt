ghost use Rattle.std.specs.Prelude.{◌≡◌, ◌+◌, ◌-◌, ◌<◌, ◌≤◌, ◌^◌, ◌==◌, length, is_some, None, OnOk, OnErr, IfNone, IfSome, OnSome, if◌then◌else◌, count_by};
ghost use Rattle.farm_model.specs.Leases.{lease_on, held_count, holds, with_lease, without_task, without_host, without_judging, judging_count, has_ended, renewed, renewed_of, first_due};
ghost use Rattle.lease_tree.specs.declared.keys.Order.TheVariants as order;
ghost use Rattle.lease_book.specs.Behind.{is_behind, without_behind, behind_count};
ghost use Rattle.lease_book.specs.Book.{empty_book, room, IsSinglyLeased, without_lease, NoneEnds, OneEnds};
ghost use Rattle.lease_book.specs.Changes.{EndsOne};
ghost use Rattle.lease_book.specs.Walks.{FirstOf, IsNext, is_left, stands_after};

use crate::change::Change;
use crate::held::Held;
use farm_kinds::{NoMemory, Task};
use farm_model::Lease;
use lease_tree::{Key, LeaseTree, Order};
use std::alloc::Global;
use std::marker::Model;

/// The leases that are held, at most one on a task, in the order in which they were granted. Only
/// `reserve` takes memory.
///
/// Each call but `reserve` takes a time that is logarithmic in the number of leases, for each lease that it
/// grants, renews or ends, whatever their ends are and in which order the calls come. The leases are kept in
/// three orders; the order in which they were granted is kept by no call, and only contracts see it.
#[derive(Drop)]
pub struct LeaseBook {
    by_judging: LeaseTree,
    by_host: LeaseTree,
    by_end: LeaseTree,
    /// How many more leases each of the trees has room for.
    spare: usize,
    /// The leases as contracts see them, which takes no bytes.
    held: Held,
}

impl Model for LeaseBook {
    ghost use Rattle.lease_book.specs.Book.{Book};

    ghost Value = { Book };

    ghost use Rattle.lease_book.specs.BookLayout.{book_value, IsBookLayout};

    ghost view = { book_value };

    ghost invariant = { IsBookLayout };
}

impl LeaseBook {
    /// A book of no leases, with no room for any. It takes memory when `reserve` is called.
    pub fn new(alloc: Global) -> LeaseBook
        ensures { result ≡ empty_book }
    {
        LeaseBook {
            by_judging: LeaseTree::new(alloc, Order::Judging),
            by_host: LeaseTree::new(alloc, Order::Host),
            by_end: LeaseTree::new(alloc, Order::End),
            spare: 0,
            held: Held::new(),
        }
    }

    /// Makes room, so that at least `n` more leases can be granted. Room is never given back. At
    /// `NoMemory` nothing changes.
    pub fn reserve(&mut self, n: u32) -> Result<(), NoMemory>
        ensures enough { OnOk result (n ≤ self.new.spare) }
        ensures leases { self.new.leases ≡ self.old.leases }
        ensures grows { self.old.spare ≤ self.new.spare }
        ensures unchanged { OnErr result (self.new ≡ self.old) }
        ensures needed { OnErr result (self.old.spare < n) }
    {
        let wanted = n as usize;
        if wanted <= self.spare {
            return Ok(());
        }
        self.by_judging.reserve(n)?;
        self.by_host.reserve(n)?;
        self.by_end.reserve(n)?;
        self.spare = wanted;
        Ok(())
    }

    /// How many leases are held.
    pub fn len(&self) -> u32
        ensures count { result ≡ length self.now.leases }
        ensures single { IsSinglyLeased self.now.leases }
        ensures few { length self.now.leases < 2 ^ 32 }
    {
        self.by_judging.len()
    }

    /// Whether no lease is held.
    pub fn is_empty(&self) -> bool
        ensures { result ≡ (length self.now.leases == 0) }
    {
        self.len() == 0
    }

    /// How many more leases can be granted before `reserve` must be called.
    pub fn spare(&self) -> usize
        ensures { result ≡ self.now.spare }
    {
        self.spare
    }

    /// Grants the task to the host until that moment. There must be room for it. Whoever shows that may use that no
    /// task has two leases, which the book itself knows.
    pub fn grant(&mut self, host: u32, task: Task, until: u64)
        requires spare { IsSinglyLeased self.old.leases → 0 < self.old.spare }
        requires unheld { lease_on self.old.leases task ≡ None }
        requires few { length self.old.leases < 2 ^ 32 - 1 }
        ensures leases { self.new.leases ≡ with_lease self.old.leases host task until }
        ensures spare { self.new.spare + 1 ≡ self.old.spare }
        ensures room { room self.new ≡ room self.old }
    {
        let lease = Lease { host, task, until };
        self.by_judging.insert(lease);
        self.by_host.insert(lease);
        self.by_end.insert(lease);
        self.spare -= 1;
        self.held = self.held.after(&Change::Granted(lease));
    }

    /// The lease that is held on the task.
    pub fn find(&self, task: Task) -> Option<Lease>
        ensures { result ≡ lease_on self.now.leases task }
    {
        self.by_judging.find(Key {
            group: task.judging as u64,
            task,
        })
    }

    /// How many leases the host holds.
    pub fn held(&self, host: u32) -> u32
        ensures { result ≡ held_count self.now.leases host }
    {
        self.by_host.count_of(host as u64)
    }

    /// Gives the lease on the task another end. False where no lease is held on it.
    pub fn renew(&mut self, task: Task, until: u64) -> bool
        ensures answer { result ≡ is_some (lease_on self.old.leases task) }
        ensures leases { self.new.leases ≡ renewed self.old.leases task until }
        ensures spare { self.new.spare ≡ self.old.spare }
        ensures room { room self.new ≡ room self.old }
    {
        // Contracts see the lease renewed where it stands; in the trees it goes, and comes again.
        let held = self.held.after(&Change::Renewed(task, until));
        let Some(lease) = self.take(task) else {
            return false;
        };
        self.grant(lease.host, task, until);
        self.held = held;
        true
    }

    /// Gives the leases that the host holds on the judging's tasks another end.
    pub fn renew_of(&mut self, host: u32, judging: u32, until: u64)
        ensures leases { self.new.leases ≡ renewed_of self.old.leases host judging until }
        ensures spare { self.new.spare ≡ self.old.spare }
        ensures room { room self.new ≡ room self.old }
    {
        let mut last = None;
        while let Some(task) = self.next_held(host, judging, last) {
            self.renew(task, until);
            last = Some(task.test);
        }
    }

    /// Ends the lease on the task. False where no lease is held on it.
    pub fn end(&mut self, task: Task) -> bool
        ensures answer { result ≡ is_some (lease_on self.old.leases task) }
        ensures leases { self.new.leases ≡ without_task self.old.leases task }
        ensures spare { self.new.spare ≡ self.old.spare + (if result then 1 else 0) }
        ensures room { room self.new ≡ room self.old }
    {
        self.take(task).is_some()
    }

    /// Takes out the lease that is due first: of those whose end is at or before now the one with the
    /// least end, on a tie the one on the least task, by judging and then by test. None where no end
    /// is at or before now.
    pub fn due(&mut self, now: u64) -> Option<Lease>
        ensures first { result ≡ first_due self.old.leases now }
        ensures leases { self.new.leases ≡ without_lease self.old.leases result }
        ensures spare { self.new.spare ≡ self.old.spare + (if is_some result then 1 else 0) }
        ensures room { room self.new ≡ room self.old }
        ensures none { IfNone result (NoneEnds self.old.leases now) }
        ensures one { OnSome result (OneEnds self.old.leases self.new.leases now) }
    {
        let Some(lease) = self.first_due(now) else {
            return None;
        };
        self.end(lease.task);
        Some(lease)
    }

    /// Ends the leases of the host, and counts them. A farm ends them one by one (`task_of_host`), since each task is shown
    /// again; this is for whoever uses the book alone.
    pub fn end_host(&mut self, host: u32) -> u32
        ensures count { result ≡ held_count self.old.leases host }
        ensures leases { self.new.leases ≡ without_host self.old.leases host }
        ensures spare { self.new.spare ≡ self.old.spare + result }
        ensures room { room self.new ≡ room self.old }
    {
        let held = self.len();
        while let Some(task) = self.task_of_host(host) {
            self.end(task);
        }
        held - self.len()
    }

    /// Ends the leases on the judging's tasks, and counts them.
    pub fn end_judging(&mut self, judging: u32) -> u32
        ensures count { result ≡ judging_count self.old.leases judging }
        ensures leases { self.new.leases ≡ without_judging self.old.leases judging }
        ensures spare { self.new.spare ≡ self.old.spare + result }
        ensures room { room self.new ≡ room self.old }
    {
        let held = self.len();
        while let Some(task) = self.task_of_judging(judging) {
            self.end(task);
        }
        held - self.len()
    }

    /// Ends the leases on the judging's tasks of a greater rank than the test, and counts them.
    pub fn end_behind(&mut self, judging: u32, test: u16) -> u32
        ensures count { result ≡ behind_count self.old.leases judging test }
        ensures leases { self.new.leases ≡ without_behind self.old.leases judging test }
        ensures spare { self.new.spare ≡ self.old.spare + result }
        ensures room { room self.new ≡ room self.old }
    {
        let held = self.len();
        while let Some(task) = self.task_behind(judging, test) {
            self.end(task);
        }
        held - self.len()
    }

    /// Takes out the lease that is held on the task.
    fn take(&mut self, task: Task) -> Option<Lease>
        ensures lease { result ≡ lease_on self.old.leases task }
        ensures leases { self.new.leases ≡ without_task self.old.leases task }
        ensures spare { self.new.spare ≡ self.old.spare + (if is_some result then 1 else 0) }
        ensures room { room self.new ≡ room self.old }
        ensures few { IfSome result (λ _. length self.new.leases < 2 ^ 32 - 1) }
        ensures unheld { lease_on self.new.leases task ≡ None }
        ensures unchanged { IfNone result (self.new ≡ self.old) }
    {
        let Some(lease) = self.by_judging.remove(Key {
            group: task.judging as u64,
            task,
        })
        else {
            return None;
        };
        self.by_host.remove(Order::Host.key(lease));
        self.by_end.remove(Order::End.key(lease));
        self.spare += 1;
        self.held = self.held.after(&Change::Ended(task));
        Some(lease)
    }

    /// The lease that is due first.
    fn first_due(&self, now: u64) -> Option<Lease>
        ensures first { result ≡ first_due self.now.leases now }
        ensures none { IfNone result (NoneEnds self.now.leases now) }
        ensures one { IfSome result (λ lease. EndsOne (has_ended now) self.now.leases lease.task) }
    {
        let Some(lease) = self.by_end.first() else {
            return None;
        };
        if now < lease.until {
            return None;
        }
        Some(lease)
    }

    /// A task that the host holds.
    pub fn task_of_host(&self, host: u32) -> Option<Task>
        ensures none { IfNone result (held_count self.now.leases host ≡ 0) }
        ensures one { IfSome result (λ task. EndsOne (holds host) self.now.leases task) }
    {
        match self.by_host.first_of(host as u64) {
            Some(lease) => Some(lease.task),
            None => None,
        }
    }

    /// A task of the judging that is held.
    fn task_of_judging(&self, judging: u32) -> Option<Task>
        ensures none { IfNone result (judging_count self.now.leases judging ≡ 0) }
        ensures one { IfSome result (λ task. EndsOne (λ lease. lease.task.judging == judging) self.now.leases task) }
    {
        match self.by_judging.first_of(judging as u64) {
            Some(lease) => Some(lease.task),
            None => None,
        }
    }

    /// A task of the judging of a greater rank than the test that is held.
    fn task_behind(&self, judging: u32, test: u16) -> Option<Task>
        ensures none { IfNone result (behind_count self.now.leases judging test ≡ 0) }
        ensures one { IfSome result (λ task. EndsOne (is_behind judging test) self.now.leases task) }
    {
        let group = judging as u64;
        let task = Task { judging, test };
        let Some(lease) = self.by_judging.first_behind(Key { group, task }) else {
            return None;
        };
        if lease.task.judging != judging {
            return None;
        }
        Some(lease.task)
    }

    /// The judging's next task behind the last one, or its first, of those that the host holds.
    fn next_held(&self, host: u32, judging: u32, last: Option<u16>) -> Option<Task>
        ensures none { IfNone result (count_by (is_left host judging last) self.now.leases ≡ 0) }
        ensures next { IfSome result (λ task. IsNext host judging last self.now.leases task) }
        ensures fits { IfSome result (λ task. task.test < 2 ^ 16) }
    {
        let Some(lease) = self.first_after(host, judging, last) else {
            return None;
        };
        if lease.host != host {
            return None;
        }
        let task = lease.task;
        if task.judging != judging {
            return None;
        }
        Some(task)
    }

    /// In the order of hosts the first lease behind that on the last test, or the first that stands no
    /// earlier than the host's on the judging's tasks.
    fn first_after(&self, host: u32, judging: u32, last: Option<u16>) -> Option<Lease>
        ensures { FirstOf order.Host (stands_after host judging last order.Host) self.now.leases result }
    {
        let group = host as u64;
        match last {
            None => {
                let task = Task { judging, test: 0 };
                self.by_host.first_from(Key { group, task })
            }
            Some(test) => {
                let task = Task { judging, test };
                self.by_host.first_behind(Key { group, task })
            }
        }
    }
}
