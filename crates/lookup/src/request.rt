// A good request: its bytes, and the view of where its numbers stand in them. Nothing of it is tested again.
ghost use Rattle.reader.specs.Meaning.{ViewOf};

use crate::Part;
use reader::View;
use records::Window;
use refusals::Refusal;

#[derive(Clone, Copy)]
pub struct Request<'a> {
    pub bytes: &'a [u8],
    pub view: View,
    pub ghost good: { ViewOf bytes.now view },
}

impl<'a> Request<'a> {
    ghost use Rattle.std.specs.Prelude.{◌≡◌, ◌+◌, ◌≤◌, ◌<◌, length};
    ghost use Rattle.rules.specs.Fields.{E, size, M_processor, M_begin, M_end};
    ghost use Rattle.rules.specs.Workflow.{window_place, task_place, edge_place};
    ghost use Rattle.rules.specs.Labels.{label_lookup};
    ghost use Rattle.reader.specs.Meaning.{meant_view};
    ghost use Rattle.lookup.specs.Lookup.{meant_part};
    ghost use Rattle.lookup.specs.Flow.{flow, ReadAs};

    // The good request that these bytes are; else the first fault.
    pub fn read(bytes: &'a [u8]) -> Result<Request<'a>, Refusal>
        ensures { ReadAs bytes.now result }
    {
        let view = reader::read_request(bytes)?;
        Ok(Request { bytes, view })
    }

    // A window.
    #[tactic(auto, using(crate::proofs::Places::window_ends))]
    pub fn window(&self, window: usize) -> Window
        requires { window < self.now.view.windows }
        ensures { (result.processor ≡ M_processor self.now.bytes.now (window_place (meant_view self.now.view) window)) × (result.begin ≡ M_begin self.now.bytes.now (window_place (meant_view self.now.view) window)) × (result.end ≡ M_end self.now.bytes.now (window_place (meant_view self.now.view) window)) }
    {
        let at = self.view.windows_at + window * 10;
        let processor = fields::field(self.bytes, at, 1);
        let begin = fields::four_bytes(self.bytes, at, 2);
        let end = fields::four_bytes(self.bytes, at, 6);
        Window {
            processor,
            begin,
            end,
        }
    }

    // Where the record of a task begins: each has its `T` and a `W` for every processor.
    #[tactic(auto, using(crate::proofs::Places::task_most, crate::specs::Views::view_processors), unfolding(rules::specs::Workflow::task_place, rules::specs::Fields::size, rules::specs::Fields::body))]
    fn task_place(&self, task: usize) -> usize
        requires { task < self.now.view.tasks }
        ensures { result ≡ task_place (meant_view self.now.view) task }
    {
        let stride = 10 + self.view.processors * 5;
        self.view.tasks_at + task * stride
    }

    // The minutes of a task on a processor.
    #[tactic(auto, using(crate::proofs::Places::minutes_end))]
    pub fn minutes(&self, task: usize, processor: usize) -> u64
        requires { (task < self.now.view.tasks) × (processor < self.now.view.processors) }
        ensures { (result ≡ (flow self.now).minutes task processor) × (result ≤ 2_000) }
    {
        fields::two_bytes(self.bytes, self.task_place(task) + (10 + processor * 5), 3)
    }

    // Where the record of an edge begins.
    #[tactic(auto, using(crate::proofs::Places::edge_ends), unfolding(rules::specs::Workflow::edge_place, rules::specs::Fields::size, rules::specs::Fields::body))]
    fn edge_place(&self, edge: usize) -> usize
        requires { edge < self.now.view.edges }
        ensures { (result ≡ edge_place (meant_view self.now.view) edge) × (result + size E ≤ length self.now.bytes.now) }
    {
        self.view.edges_at + edge * 5
    }

    // The task that an edge leads from. This and `to` stay two functions: one for both ends would take the end as an argument, and be no plainer than a line each.
    #[tactic(auto, unfolding(rules::specs::Fields::size, rules::specs::Fields::body))]
    pub fn from(&self, edge: usize) -> usize
        requires { edge < self.now.view.edges }
        ensures { (result ≡ (flow self.now).from edge) × (result < self.now.view.tasks) }
    {
        fields::field(self.bytes, self.edge_place(edge), 1)
    }

    // The task that an edge leads to.
    #[tactic(auto, unfolding(rules::specs::Fields::size, rules::specs::Fields::body))]
    pub fn to(&self, edge: usize) -> usize
        requires { edge < self.now.view.edges }
        ensures { (result ≡ (flow self.now).to edge) × (result < self.now.view.tasks) }
    {
        fields::field(self.bytes, self.edge_place(edge), 2)
    }

    // The transfer minutes of an edge.
    #[tactic(auto, unfolding(rules::specs::Fields::size, rules::specs::Fields::body))]
    pub fn transfer(&self, edge: usize) -> u64
        requires { edge < self.now.view.edges }
        ensures { (result ≡ (flow self.now).transfer edge) × (result ≤ 1_000) }
    {
        fields::two_bytes(self.bytes, self.edge_place(edge), 3)
    }

    // Where the label of a task stands, without its spaces.
    pub fn label(&self, task: usize) -> Part
        requires { task < self.now.view.tasks }
        ensures { meant_part result ≡ label_lookup self.now.bytes.now task }
    {
        let begin = self.task_place(task) + 2;
        let length = label::label_len(self.bytes, begin);
        Part { begin, length }
    }
}
