// Fetches, distributions and orders of requirements.
ghost use Rattle.std.specs.Prelude.{◌≡◌};
ghost use Rattle.key_lists.specs.Keys.{Keyed, order_of, Real};
ghost use Rattle.asked_facts.specs.Asked.{told, FactRow};
ghost use Rattle.walks.specs.SortPushdown.{min_fetch, stronger_distribution, effective_dist};
ghost use Rattle.walks.specs.Utils.{needs_merge};

use asked_facts::{one_stream, several_streams};
use key_lists::{Keys, no_keys};
use plan::Distribution;
use wanted_inputs::is_single;

// The stricter fetch.
pub fn min_fetch(f: Option<u32>, g: Option<u32>) -> Option<u32>
    ensures { result ≡ min_fetch f g }
{
    match (f, g) {
        (None, _) => g,
        (_, None) => f,
        (Some(m), Some(n)) => Some(m.min(n)),
    }
}

// Single before keyed before none; of two keyed ones the first.
pub fn stronger_distribution(d: Distribution, e: Distribution) -> Distribution
    ensures { result ≡ stronger_distribution d e }
{
    match e {
        Distribution::Unspecified => d,
        Distribution::Single => Distribution::Single,
        Distribution::Keyed(_) => match d {
            Distribution::Unspecified => e,
            Distribution::Single => d,
            Distribution::Keyed(_) => d,
        },
    }
}

// The parent requires a single stream and the node has several.
pub fn needs_merge(own: &[u8], d: Distribution) -> bool
    requires { FactRow own.now }
    ensures { result ≡ needs_merge (told own.now) d }
{
    several_streams(own) & is_single(d)
}

// A node that gives one stream hands no distribution on.
pub fn effective_distribution(own: &[u8], d: Distribution) -> Distribution
    requires { FactRow own.now }
    ensures { result ≡ effective_dist (told own.now) d }
{
    if one_stream(own) {
        return Distribution::Unspecified;
    }
    d
}

// The keys of an order: of none no keys.
pub fn keys_in(o: Option<Keys>) -> Keys
    requires { Real o }
    ensures { Keyed (order_of o) result }
{
    let Some(k) = o else {
        return no_keys();
    };
    k
}
