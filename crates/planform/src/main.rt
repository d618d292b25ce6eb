#![tactic(auto)]

// Program `planform`: a plan file from standard input, its canonical form to standard output; a refusal to standard
// error. Two accepted files hold the same plan exactly when their forms are equal.
ghost use Rattle.std.specs.Prelude.{◌≡◌, ◌≤◌, ◌↔◌, IfErr, IfOk, IsOk, IsTrue, length, take};
ghost use Rattle.plan.specs.Errors.{write_error_fault};
ghost use Rattle.plan.specs.Files.{accepted, file_fault};
ghost use Rattle.plan.specs.Canonical.{canonical_of};
ghost use Rattle.plan.specs.Promises.{max_form};

use arrayvec::ArrayVec;
use plan::{Fault, Plan, WriteError};
use std::env::Env;

// A canonical form.
type Form = ArrayVec<u8, { Plan::MAX_FORM }>;

// The form at the start of a buffer that holds any; answers its size: a first call, with no space, tells it.
fn write_form(file: &[u8], out: &mut [u8]) -> Result<usize, WriteError>
    requires { max_form ≤ length out.old }
    ensures accepts { IsOk result ↔ IsTrue (accepted file.now) }
    ensures fault { IfErr result (λ e. write_error_fault e ≡ file_fault file.now) }
    ensures form { IfOk result (λ size. take size out.new ≡ canonical_of file.now) }
    ensures fits { IfOk result (λ size. size ≤ length out.new) }
{
    match plan::write_plan(file, &mut out[..0]) {
        Err(WriteError::SpaceLength { size }) => plan::write_plan(file, &mut out[..size]),
        written => written,
    }
}

// The form of a file.
fn form_of(file: &[u8]) -> Result<Form, WriteError>
    ensures accepts { IsOk result ↔ IsTrue (accepted file.now) }
    ensures fault { IfErr result (λ e. write_error_fault e ≡ file_fault file.now) }
    ensures form { IfOk result (λ form. form.items ≡ canonical_of file.now) }
{
    let mut form = Form::from([0; Plan::MAX_FORM]);
    let size = write_form(file, &mut form)?;
    form.truncate(size);
    Ok(form)
}

fn main(rt: HostRuntime) {
    input::run(
        "planform",
        rt.arg(1, &mut []),
        rt.stdin(),
        &rt.stdout(),
        &rt.stderr(),
        |file| form_of(file).map_err(Fault::from),
    );
}
