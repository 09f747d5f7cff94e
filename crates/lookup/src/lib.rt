// Numbers and labels of a request, read where they stand in its bytes. Of a good request nothing is tested again.
#![tactic(auto)]

ghost use Rattle.std.specs.Prelude.{◌≡◌};
ghost use Rattle.rules.specs.Labels.{label_lookup};
ghost use Rattle.lookup.specs.Lookup.{meant_part, LabelOf};

mod request;

pub use records::Window;
pub use request::Request;

// A part of the request's bytes.
#[derive(Clone, Copy)]
pub struct Part {
    pub begin: usize,
    pub length: usize,
}

// Where the label of a task stands, without its spaces: nowhere, at the start, for a request that is refused in reading and for a task not below n.
pub fn label_part(s: &[u8], task: usize) -> Part
    ensures { meant_part result ≡ label_lookup s.now task }
{
    match Request::read(s) {
        Ok(r) if task < r.view.tasks => r.label(task),
        _ => Part {
            begin: 0,
            length: 0,
        },
    }
}

// The label of a task, without its spaces: a part of the request's own bytes, or its empty start.
pub fn label<'a>(s: &'a [u8], task: usize) -> &'a [u8]
    ensures { LabelOf s.now s.entry.ref_ptr task result.now result.ref_ptr }
{
    let Part { begin, length } = label_part(s, task);
    &s[begin..begin + length]
}
