// What `clocks` says, on a page: the line of an instance of feature 2, the line of a cluster, and the line of a cluster that is refused.
ghost use Rattle.std.specs.Prelude.{◌≡◌, [], ◌∷◌};
ghost use Rattle.words.specs.Told.{told};
ghost use Rattle.text.specs.Page.{Wrote};
ghost use Rattle.uncore_lines.specs.ClockLines.{clusters_runs, instance_runs, ratio_runs, throttle_words, agent_runs, agents, bare, agents_runs, cluster_runs, refused_runs};

use text::page::Page;
use uncore_controls::control::Control;
use uncore_registers::status::Status;
use words::answers::Refusal;

// How many clusters an instance has, or why that is not known: 13 says that it is invalid.
fn clusters_part(page: &mut Page, clusters: Result<u64, Refusal>)
    ensures wrote { Wrote page.old page.new (clusters_runs (told clusters)) }
{
    match clusters {
        Ok(k) => page.labelled(b" clusters ", k),
        Err(Refusal(13)) => page.put(b" invalid"),
        Err(Refusal(n)) => page.labelled(b" refused ", u64::from(n)),
    }
}

// The line of instance i.
pub fn instance_line(page: &mut Page, i: u64, clusters: Result<u64, Refusal>)
    ensures wrote { Wrote page.old page.new (instance_runs i (told clusters)) }
{
    page.labelled(b"instance ", i);
    clusters_part(page, clusters);
    page.put(b"\n");
}

// The ratio that a cluster has, and the two between which it is held.
fn ratios_part(page: &mut Page, t: Status, k: Control)
    ensures wrote { Wrote page.old page.new (ratio_runs t k) }
{
    page.labelled(b" current ", t.ratio);
    page.labelled(b" minimum ", k.minimum);
    page.labelled(b" maximum ", k.maximum);
}

// The throttle mode in words.
fn throttle_part(page: &mut Page, mode: u64)
    ensures wrote { Wrote page.old page.new (throttle_words mode ∷ []) }
{
    match mode {
        0 => page.put(b" throttle ordered"),
        1 => page.put(b" throttle proportional"),
        _ => page.put(b" throttle reserved"),
    }
}

// An agent's word, where its number is 1.
fn agent_part(page: &mut Page, word: &[u8], there: u64)
    ensures wrote { Wrote page.old page.new (agent_runs word.now there) }
{
    if there == 1 {
        page.put(word);
    }
}

// A cluster without an agent.
fn bare(t: Status) -> bool
    ensures answer { result ≡ bare (agents t) }
{
    t.core != 1 && t.cache != 1 && t.memory != 1 && t.io != 1
}

// The agents of a cluster, in the order of their bits.
fn agents_part(page: &mut Page, t: Status)
    ensures wrote { Wrote page.old page.new (agents_runs t) }
{
    page.put(b" agents");
    if bare(t) {
        return page.put(b" none");
    }
    agent_part(page, b" core", t.core);
    agent_part(page, b" cache", t.cache);
    agent_part(page, b" memory", t.memory);
    agent_part(page, b" io", t.io);
}

// The line of local cluster n, whose registers start at the place `start` of the BAR capture: its status is t and its control k.
pub fn cluster_line(page: &mut Page, n: u64, start: u64, t: Status, k: Control)
    ensures wrote { Wrote page.old page.new (cluster_runs n start t k) }
{
    page.labelled(b"cluster ", n);
    page.labelled(b" at ", start);
    ratios_part(page, t, k);
    throttle_part(page, k.mode);
    agents_part(page, t);
    page.put(b"\n");
}

// The line of a local cluster where a lookup of its registers is refused.
pub fn refused_line(page: &mut Page, cluster: u64, refusal: Refusal)
    ensures wrote { Wrote page.old page.new (refused_runs cluster refusal.0) }
{
    page.labelled(b"cluster ", cluster);
    page.labelled(b" refused ", u64::from(refusal.0));
    page.put(b"\n");
}
