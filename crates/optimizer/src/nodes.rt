ghost use Rattle.std.specs.Prelude.{◌≤◌, ◌*◌, length};
ghost use Rattle.optimizer.specs.Space.{Light};

use super::order::{cost_of, is_less};
use boundary::Node;
use plan::{PerTask, Plan};

// The open nodes of a search: so many assignments, each in its own stretch of the work space, which has room for more;
// and the weights of their costs, copied out once, since they are read for every open node in every round. The work
// space is one flat array, as it is lent, and the requirement has the stretches in it.
#[derive(Drop)]
pub struct OpenNodes<'w> {
    pub work: &'w mut [u32],
    pub weights: PerTask,
    pub room: usize,
    pub count: usize,
    ghost light: { Light weights.items },
    ghost fits: { room * length weights.items ≤ length work.now },
    ghost within: { count ≤ room },
}

// The least of the open nodes, and its cost.
#[derive(Clone, Copy, Debug, PartialEq, Eq)]
pub struct Least {
    pub node: usize,
    pub cost: u64,
}

impl<'w> OpenNodes<'w> {
    ghost use Rattle.std.specs.Prelude.{◌≡◌, [], ◌∷◌, ◌++◌, ◌+◌, ◌-◌, ◌<◌, set};
    ghost use Rattle.plan.specs.Promises.{plan_tasks};
    ghost use Rattle.response.specs.Assignments.{cost};
    ghost use Rattle.optimizer.specs.Nodes.{without, SameNodes};
    ghost use Rattle.optimizer.specs.Inner.{node_at, put, open_nodes, SameSpace, Starts, IsLeast, Taken};

    // The shortest periods alone.
    pub fn start(plan: &Plan, work: &'w mut [u32]) -> OpenNodes<'w>
        requires { length (plan_tasks plan.now) ≤ length work.old }
        ensures same_reference { result.work.ghost_name ≡ work.entry.ghost_name }
        ensures starts { Starts (plan_tasks plan.now) (length work.old) result }
    {
        let weights = plan.column(|task| task.weight);
        let room = work.len() / weights.len();
        let mut open = OpenNodes {
            work,
            weights,
            room,
            count: 1,
        };
        open.place(0, &plan.column(|task| task.period_min));
        open
    }

    // The periods of node k, in their stretch.
    pub fn node(&self, k: usize) -> &[u32]
        requires { k < self.now.count }
        ensures { result.now ≡ node_at self.now.work.now (length self.now.weights.items) k }
    {
        let n = self.weights.len();
        &self.work[k * n..k * n + n]
    }

    // Periods become node k.
    fn place(&mut self, k: usize, node: &[u32])
        requires { (k < self.old.room) × (length node.now ≡ length self.old.weights.items) }
        ensures same { SameSpace self.old self.new }
        ensures count { self.new.count ≡ self.old.count }
        ensures placed { let n = length self.old.weights.items in
            self.new.work.now ≡ put self.old.work.now (k * n) node.now }
    {
        let n = self.weights.len();
        self.work[k * n..k * n + n].copy_from_slice(node);
    }

    // Takes node k off: the last one moves into its stretch.
    fn remove(&mut self, k: usize)
        requires { k < self.old.count }
        ensures same { SameSpace self.old self.new }
        ensures count { self.new.count ≡ self.old.count - 1 }
        ensures removed { let n = length self.old.weights.items in
            SameNodes (open_nodes self.new) (without (node_at self.old.work.now n k) (open_nodes self.old)) }
    {
        let n = self.weights.len();
        self.count -= 1;
        let last = self.count * n;
        self.work.copy_within(last..last + n, k * n);
    }

    // The cost of node k.
    fn cost(&self, k: usize) -> u64
        requires { k < self.now.count }
        ensures { let n = length self.now.weights.items in
            result ≡ cost self.now.weights.items (node_at self.now.work.now n k) }
    {
        cost_of(&self.weights, self.node(k))
    }

    // The least of them. That there is one is asked, and is no fact of the type: between taking a node and listing its
    // children there may be none. An Option would be unwrapped by the same fact wherever it is called. A loop, since
    // `min_by` compares by an `Ordering`, as tuples do (`is_less`).
    pub fn least(&self) -> Least
        requires { 1 ≤ self.now.count }
        ensures { IsLeast self.now result }
    {
        let mut least = Least {
            node: 0,
            cost: self.cost(0),
        };
        for node in 1..self.count {
            let cost = self.cost(node);
            if is_less(cost, least.cost, self.node(node), self.node(least.node)) {
                least = Least { node, cost };
            }
        }
        least
    }

    // Takes the least node off.
    pub fn take_least(&mut self) -> Node
        requires { 1 ≤ self.old.count }
        ensures same { SameSpace self.old self.new }
        ensures taken { Taken self.old self.new result }
    {
        let least = self.least();
        let periods = PerTask::try_from(self.node(least.node)).unwrap();
        self.remove(least.node);
        Node {
            cost: least.cost,
            periods,
        }
    }

    // Lists a child after the open nodes: node with one period set.
    pub fn append_child(&mut self, node: &[u32], i: usize, period: u32)
        requires room { self.old.count < self.old.room }
        requires node { (length node.now ≡ length self.old.weights.items) × (i < length node.now) }
        ensures same { SameSpace self.old self.new }
        ensures count { self.new.count ≡ self.old.count + 1 }
        ensures listed { open_nodes self.new ≡ open_nodes self.old ++ (set node.now i period ∷ []) }
    {
        let k = self.count;
        self.place(k, node);
        self.work[k * node.len() + i] = period;
        self.count += 1;
    }
}
