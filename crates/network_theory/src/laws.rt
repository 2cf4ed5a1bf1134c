//! The laws of every schedule, for the nets of any work.

ghost use Rattle.std.specs.Prelude.{ℕ, List};
ghost use Rattle.cloud_points.specs.declared.point.Point.{Point};
ghost use Rattle.cloud_points.specs.declared.faults.StageFault.{StageFault};
ghost use Rattle.network_theory.specs.Depth.{depth};
ghost use Rattle.network_theory.specs.Due.{IsBelow};
ghost use Rattle.network_theory.specs.Forest.{IsForest, children};
ghost use Rattle.network_theory.specs.Laws.{QueuesKeepOrder, RestStays, FlightIsBounded, LeavesReadAhead, SomeNodeMoves};
ghost use Rattle.network_theory.specs.Laws.{DueFalls, OpeningOwes, SchedulesAgree, NetsStaySound};
ghost use Rattle.network_theory.specs.Laws.{PointsComeInOrder, TurnsCarry, FlowsAreStreamed};
ghost use Rattle.network_theory.specs.Shape.{IsTree};

use cloud_points::Work;

/// Whatever the events, each edge keeps the rule of a queue, and a node is done exactly where it gave its
/// End.
pub fn queues_keep_order<W: Work>(_work: &W)
    ensures { QueuesKeepOrder W.State Point StageFault }
{}

/// Without an event what is still to come is that of the opening net.
pub fn rest_stays<W: Work>(_work: &W)
    ensures { RestStays W.State Point StageFault }
{}

/// Without an event each node takes the points that its inputs bring, in their order.
pub fn points_come_in_order<W: Work>(_work: &W)
    ensures { PointsComeInOrder W.State Point StageFault }
{}

/// Whatever the events, the points in flight are at most those of full queues of full chunks and one chunk a
/// node.
pub fn flight_is_bounded<W: Work>(_work: &W)
    ensures { FlightIsBounded W.State Point StageFault }
{}

/// Where turns without an event ended at a fault of a node, what the leaves under it gave and what they read beyond that is no more
/// than the points that come before the fault, those of full queues, a chunk for each node and one more, as long as each node
/// under it gives on as many as it takes.
pub fn leaves_read_ahead<W: Work>(_work: &W)
    ensures { LeavesReadAhead W.State Point StageFault }
{}

/// While a node is not done, some node's turn does work, whatever its event.
pub fn some_node_moves<W: Work>(_work: &W)
    ensures { SomeNodeMoves W.State Point StageFault }
{}

/// Each turn that does work lowers what is due, and any other turn changes nothing.
pub fn due_falls<W: Work>(_work: &W)
    ensures { DueFalls W.State Point StageFault }
{}

/// What an opening net owes is bounded by its nodes and by the points and views that its leaves have left.
pub fn opening_owes<W: Work>(_work: &W)
    ensures { OpeningOwes W.State Point StageFault }
{}

/// All schedules without events that end leave every node alike.
pub fn schedules_agree<W: Work>(_work: &W)
    ensures { SchedulesAgree W.State Point StageFault }
{}

/// A net is sound at its start and after every schedule, whatever the events.
pub fn nets_stay_sound<W: Work>(_work: &W)
    ensures { NetsStaySound W.State Point StageFault }
{}

/// Each turn without an event carries what it took to what it gave.
pub fn turns_carry<W: Work>(_work: &W)
    ensures { TurnsCarry W.State Point StageFault }
{}

/// A net at its start whose leaves tell flows, and whose other nodes each make one of the flows of their
/// children, joined in the order of the inputs, gives these flows, and each node has the fault that its work
/// has on what it takes.
pub fn flows_are_streamed<W: Work>(_work: &W)
    ensures { FlowsAreStreamed W.State Point StageFault }
{}

/// Lists of children in which each node but the last is a child once, below its parent, are a tree.
pub fn forests_are_trees()
    ensures { (ins : List (List ℕ)) (root : ℕ) → IsForest ins root → IsTree (children ins) root }
{}

/// Each node of a tree has a depth.
pub fn trees_have_depths()
    ensures { (ins : ℕ → List ℕ) (root : ℕ) (tree : IsTree ins root)
        → IsBelow ins root (depth tree.parent root root) }
{}
