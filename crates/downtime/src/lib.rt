// What the processors of a good request are busy with at first: its windows.
#![tactic(auto)]

ghost use Rattle.std.specs.Prelude.{◌≡◌};
ghost use Rattle.reader.specs.Meaning.{meant_view};
ghost use Rattle.lookup.specs.Flow.{flow};
ghost use Rattle.busy.specs.Kept.{Keeps};
ghost use Rattle.downtime.specs.Windows.{kept_windows};

use busy::Processors;
use lookup::Request;

// The windows of a good request, each among those of its processor.
pub fn busy_at_first(r: &Request<'_>) -> Processors
    ensures { (result ≡ kept_windows r.now.bytes.now (meant_view r.now.view) r.now.view.windows) × Keeps (flow r.now).busy_at_first r.now.view.windows result }
{
    let mut busy = Processors::new();
    for e in 0..r.view.windows {
        let w = r.window(e);
        busy.put(w.processor, w.begin, w.end);
    }
    busy
}
