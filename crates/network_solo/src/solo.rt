//! A net that one thread runs to its end.

use crate::rounds::take_rounds;
use cloud_points::Work;
use network_core::{Net, Steps, Stop};
use std::marker::Model;
use std::sync::ledger::Ledger;

/// A net whose nodes take turns on the thread of its caller. A clause sees the net.
#[derive(Drop)]
pub struct Solo<W> {
    net: Net<W>,
}

impl<W> Model for Solo<W> {
    ghost use Rattle.network_core.specs.declared.net.Net.{Net};

    ghost Value = { Net W };

    ghost view = { λ s. s.net };
}

impl<W: Work> Solo<W> {
    ghost use Rattle.std.specs.Prelude.{◌≡◌};
    ghost use Rattle.network_core.specs.Nets.{ins_of, nodes_of, capacity_of, IsNewNet};
    ghost use Rattle.network_solo.specs.Ahead.{IsReadAhead};
    ghost use Rattle.network_solo.specs.Runs.{HadCounted, IsRunToEnd, IsWithinDue, EndsInRest};
    ghost use Rattle.network_solo.specs.Stopping.{NoneFaulty, IsOver, HadInTime, FaultsToCome, IsStoppedTree};
    ghost use Rattle.network_solo.specs.Trees.{IsRanTree};
    ghost use Rattle.network_core.specs.declared.stop.Stop.TheVariants.{First};

    /// This net, to be run.
    pub fn new(net: Net<W>) -> Solo<W>
        ensures { result ≡ net }
    {
        Solo { net }
    }

    /// Lets the nodes of a new net take turns until all are done. The turns that did work are counted in
    /// `steps`, and are at most as many as are due at the start.
    ///
    /// Where no node met a device's fault, no memory was wanting and all leaves tell, each node ends as what
    /// was to come at the start says: over flows of which each leaf tells one and each other node makes one
    /// of those of its children, it gave on its flow, has the fault that its work has on what it took, and
    /// without a fault holds the points of that.
    pub fn run<L: Ledger>(&mut self, steps: &mut Steps<L>)
        requires new { IsNewNet W.Work self.old }
        ensures done { IsRunToEnd W.Work self.new }
        ensures counted { HadCounted W.Work self.old self.new steps.old steps.new }
        ensures bounded { IsWithinDue W.Work self.old steps.old steps.new }
        ensures ends { EndsInRest W.Work self.old self.new }
        ensures ran { IsRanTree W.Work (ins_of self.old) (nodes_of self.old) (nodes_of self.new) }
    {
        take_rounds(&mut self.net, steps, Stop::Last);
    }

    /// Lets the nodes of a new net take turns until all are done or one has a fault; no turn comes after a
    /// fault. The turns that did work are counted in `steps`, and are at most as many as are due at the start.
    ///
    /// Where no node met a device's fault, no memory was wanting and all leaves tell, each fault of a node is
    /// the one that was to come at the start: over flows of which each leaf tells one and each other node makes
    /// one of those of its children, the fault that a leaf tells, and that of another node's work on all that
    /// it takes. Where no node has a fault, all end as `run` says.
    pub fn run_first<L: Ledger>(&mut self, steps: &mut Steps<L>)
        requires new { IsNewNet W.Work self.old }
        ensures over { IsOver W.Work First self.new }
        ensures in_time { HadInTime W.Work First self.old self.new }
        ensures counted { HadCounted W.Work self.old self.new steps.old steps.new }
        ensures bounded { IsWithinDue W.Work self.old steps.old steps.new }
        ensures faults { FaultsToCome W.Work self.old self.new }
        ensures stopped { IsStoppedTree W.Work (ins_of self.old) (nodes_of self.old) (nodes_of self.new) }
        ensures ahead { IsReadAhead W.Work (ins_of self.old) (capacity_of self.old) (nodes_of self.old)
            (nodes_of self.new) }
        ensures ran { NoneFaulty W.Work (nodes_of self.new)
            → IsRanTree W.Work (ins_of self.old) (nodes_of self.old) (nodes_of self.new) }
    {
        take_rounds(&mut self.net, steps, Stop::First);
    }

    /// The net.
    pub fn into_net(self) -> Net<W>
        ensures { result ≡ self }
    {
        self.net
    }
}
