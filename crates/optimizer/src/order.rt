ghost use Rattle.std.specs.Prelude.{◌≡◌};
ghost use Rattle.response.specs.Assignments.{cost, by_cost};
ghost use Rattle.optimizer.specs.Inner.{Weighed};

// The cost, 64 bits wide: it passes 32.
pub fn cost_of(weights: &[u32], periods: &[u32]) -> u64
    requires { Weighed weights.now periods.now }
    ensures { result ≡ cost weights.now periods.now }
{
    let mut sum: u64 = 0;
    // By place: zip takes the lesser of two lengths at every node; with 16 tasks the scan of them was 7 % slower.
    for (i, &period) in periods.iter().enumerate() {
        sum += u64::from(weights[i]) * u64::from(period);
    }
    sum
}

// The order of two assignments whose costs are known: by cost, then by their periods in turn. Not as tuples: these are
// compared through an Option of an order, and a scan of given costs took 1.4 to 2.3 ns a node so, in place of 1.0.
pub fn is_less(a_cost: u64, b_cost: u64, a: &[u32], b: &[u32]) -> bool
    ensures { result ≡ by_cost a_cost b_cost a.now b.now }
{
    a_cost < b_cost || a_cost == b_cost && a < b
}
