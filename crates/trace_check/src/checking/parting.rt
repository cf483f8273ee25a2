//! The parts of an input.

ghost use Rattle.std.specs.Prelude.{◌≡◌, ◌≤◌, ◌<◌, ◌+◌, ◌&&◌, length, drop, IfSome};
ghost use Rattle.text_fields.specs.Reading.{Reads};
ghost use Rattle.trace_check.specs.Inputs.{starts_line, place_from, trace_place, parts_of};

use text_fields::strip;

/// The parts of an input.
#[derive(Clone, Copy, Debug)]
pub(crate) struct InputParts<'a> {
    pub script: &'a [u8],
    /// What the run of the script reported.
    pub report: &'a [u8],
    /// The entries that the run made.
    pub trace: &'a [u8],
}

/// What a line that parts an input begins with.
#[derive(Clone, Copy, Debug, PartialEq, Eq)]
pub(crate) enum LineStart {
    /// The line `output`, with its end.
    Output,
    /// The count of stripes in a report.
    Stripes,
    /// No line of a report behind that count.
    Trace,
}

/// Whether bytes begin so.
fn starts_line(start: LineStart, bytes: &[u8]) -> bool
    ensures { result ≡ starts_line start bytes.now }
{
    match start {
        LineStart::Output => bytes.starts_with(b"output\n"),
        LineStart::Stripes => bytes.starts_with(b"stripes "),
        LineStart::Trace => !(bytes.starts_with(b"dirty ") || bytes.starts_with(b"absent ")),
    }
}

/// Whether a line begins so.
fn begins_line(start: LineStart, begins: bool, bytes: &[u8]) -> bool
    ensures { result ≡ (begins && starts_line start bytes.now) }
{
    begins && starts_line(start, bytes)
}

/// Where the first line from a place on begins so. At the place itself one begins, or none does.
fn place_from(bytes: &[u8], start: LineStart, from: usize, begins: bool) -> Option<usize>
    requires { from ≤ length bytes.now }
    ensures value { result ≡ place_from start from begins (drop from bytes.now) }
    ensures within { IfSome result (λ place. place < length bytes.now) }
{
    let mut place = from;
    let mut begins = begins;
    while place < bytes.len() {
        if begins_line(start, begins, &bytes[place..]) {
            return Some(place);
        }
        begins = bytes[place] == b'\n';
        place += 1;
    }
    None
}

/// Where the trace begins in an output.
fn trace_place(output: &[u8]) -> usize
    ensures value { result ≡ trace_place output.now }
    ensures within { result ≤ length output.now }
{
    let Some(stripes) = place_from(output, LineStart::Stripes, 0, true) else {
        return output.len();
    };
    match place_from(output, LineStart::Trace, stripes, false) {
        Some(place) => place,
        None => output.len(),
    }
}

/// The script, the report and the trace, if a line parts the script from the others.
#[tactic(auto, unfolding(crate::specs::Inputs::parts_of))]
pub(crate) fn parts(input: &[u8]) -> Option<InputParts<'_>>
    ensures { Reads (λ x. record { script = x.script.now; report = x.report.now; trace = x.trace.now }) result (parts_of input.now) }
{
    let place = place_from(input, LineStart::Output, 0, true)?;
    let (script, rest) = input.split_at(place);
    let output = strip(rest, b"output\n")?;
    let (report, trace) = output.split_at(trace_place(output));
    Some(InputParts {
        script,
        report,
        trace,
    })
}
