// The refusals of a dry run (02, P3), from the plan file's records and the rows' bytes.
#![tactic(auto)]

ghost use Rattle.std.specs.Prelude.{◌≡◌, true, [], ℕ, ◌+◌, ◌≤◌, ◌<◌, length, get_or};
ghost use Rattle.plan.specs.Numbers.{number_of};
ghost use Rattle.plan_format.specs.Blocks.{record_count, record_start, record_at};
ghost use Rattle.plan_format.specs.Reading.{refusal_of};
ghost use Rattle.plan_codec.specs.Reading.{plan_of};
ghost use Rattle.semantics.specs.SourceRows.{sources_of};
ghost use Rattle.stepping.specs.RowBytes.{rows_together, stream_widths, rows_in, form_ok};
ghost use Rattle.stepping.specs.Answers.{first_unstepped, at_source, sources_ok};
ghost use Rattle.source_rows.specs.Files.{op_at};
ghost use Rattle.source_rows.specs.Nodes.{unstepped_byte};
ghost use Rattle.source_rows.specs.Sources.{streams_in, SourceAt};
ghost use Rattle.source_rows.specs.Declared.{kept_at};

// Byte i of record j.
pub fn byte_of(plan: &[u8], j: usize, i: usize) -> usize
    requires { (record_start j + 64 ≤ length plan.now) × (i < 64) }
    ensures { result ≡ get_or (record_at plan.now j) i 0 }
{
    let at = plan_format::record_start(j);
    plan[at + i] as usize
}

// Record j is a join's or an aggregate's.
fn is_unstepped(plan: &[u8], j: usize) -> bool
    requires { record_start j + 64 ≤ length plan.now }
    ensures { result ≡ unstepped_byte (get_or (record_at plan.now j) 0 0) }
{
    let k = byte_of(plan, j, 0);
    ((k == 11) | (k == 12)) | (k == 15)
}

// "A plan with a join or an aggregate isn't stepped": the first such node's number, and the node count where there is none.
pub fn first_unstepped(plan: &[u8], n: usize) -> usize
    requires { (number_of (refusal_of plan.now) ≡ 0) × (n ≡ record_count plan.now) }
    ensures { result ≡ first_unstepped (plan_of plan.now) }
{
    for j in 0..n {
        if is_unstepped(plan, j) {
            return j;
        }
    }
    n
}

// How many streams of rows are given for record j: a source's own, and none for another kind, though a repartition has that byte too.
pub fn streams_of(plan: &[u8], j: usize) -> usize
    requires { record_start j + 64 ≤ length plan.now }
    ensures { result ≡ streams_in (record_at plan.now j) }
{
    if byte_of(plan, j, 0) == 1 {
        return byte_of(plan, j, 2);
    }
    0
}

// "Bytes in .. per stream, in node and stream order": all streams have the form, and no byte is missing or left over.
pub fn form_fits(plan: &[u8], n: usize, rows: &[u8]) -> bool
    requires { (number_of (refusal_of plan.now) ≡ 0) × (n ≡ record_count plan.now) }
    ensures { result ≡ form_ok (plan_of plan.now) rows.now }
{
    let mut at = 0;
    for j in 0..n {
        let k = streams_of(plan, j);
        let w = byte_of(plan, j, 13);
        if !row_bytes::source_fits(rows, at, w, k) {
            return false;
        }
        at = row_bytes::source_end(rows, at, w, k);
    }
    at == rows.len()
}

// How many rows "the sources together" have: 27 comes above 256.
pub fn rows_given(plan: &[u8], n: usize, rows: &[u8]) -> usize
    requires { (number_of (refusal_of plan.now) ≡ 0) × (n ≡ record_count plan.now) × (form_ok (plan_of plan.now) rows.now ≡ true) }
    ensures { result ≡ rows_together rows.now 0 (stream_widths (sources_of (plan_of plan.now) [])) }
{
    let mut count = 0;
    let mut at = 0;
    for j in 0..n {
        let k = streams_of(plan, j);
        let w = byte_of(plan, j, 13);
        count += row_bytes::source_count(rows, at, w, k);
        at = row_bytes::source_end(rows, at, w, k);
    }
    count
}

// The rows of record j's source, from `at` on, keep its declared order and its constants; another kind declares nothing.
fn source_kept(plan: &[u8], j: usize, rows: &[u8], at: usize) -> bool
    requires { SourceAt plan.now j rows.now at }
    ensures { result ≡ at_source (kept_at rows.now at) (op_at plan.now j) }
{
    let k = streams_of(plan, j);
    let w = byte_of(plan, j, 13);
    let m = byte_of(plan, j, 12);
    let a = plan_format::record_start(j);
    let e = a + 64;
    let keys = record_keys::packed_keys(&plan[a..e]);
    if !row_bytes::source_in_order(&keys[..m], rows, at, w, k) {
        return false;
    }
    let constants = scan::get32(plan, a + 32);
    row_bytes::constants_fit(constants, rows, at, w, k)
}

// "Their source's declared order or constants": every source's rows keep them.
pub fn declared_fits(plan: &[u8], n: usize, rows: &[u8]) -> bool
    requires { (number_of (refusal_of plan.now) ≡ 0) × (n ≡ record_count plan.now) × (form_ok (plan_of plan.now) rows.now ≡ true) }
    ensures { result ≡ sources_ok (rows_in (plan_of plan.now) rows.now) (plan_of plan.now) }
{
    let mut at = 0;
    for j in 0..n {
        if !source_kept(plan, j, rows, at) {
            return false;
        }
        let k = streams_of(plan, j);
        let w = byte_of(plan, j, 13);
        at = row_bytes::source_end(rows, at, w, k);
    }
    true
}
