// The call that a form asks for.
ghost use Rattle.std.specs.Prelude.{◌≡◌, ℕ, List, Some, None, Ok, Option};
ghost use Rattle.rules.specs.declared.Call.{Call};
ghost use Rattle.forms.specs.declared.makers.Form.{Form};
ghost use Rattle.forms.specs.declared.shapes.RankKind.{RankKind};
ghost use Rattle.forms.specs.declared.shapes.RankKind.TheVariants.{Grade as grades, Due as dues};
ghost use Rattle.script.specs.Reading.{Reads};
ghost use Rattle.driver.specs.Asked.{plain_call, grade_call, due_call};
ghost use Rattle.std.proofs.Common.{rules};

use forms::{Form, RankKind};
use plant::Element;
use ranks::{Client, Due, Grade, Rank};
use rules::{Call, Pointer};

// A kind of rank that a script can open with.
pub trait ScriptRank: Rank {
    // How an open names the kind.
    ghost KIND: { RankKind };

    const KIND: RankKind;

    ghost call_of: { Form → Option (Call Self) };

    // The call of a form where ranks are of this kind.
    fn call_of(form: Form) -> Option<Call<Self>>
        ensures { result ≡ call_of form };

    // Every form that a line can read as after the open asks for a call.
    ghost asks: { (line : List ℕ) (form : Form) → Reads (Some KIND) line (Ok form) → call_of form ≡ None → ⊥ };
}

impl ScriptRank for Grade {
    ghost KIND = { grades };

    const KIND: RankKind = RankKind::Grade;

    ghost call_of = { grade_call };

    ghost asks = { Prim.search rules };

    fn call_of(form: Form) -> Option<Call<Grade>> {
        match form {
            Form::BeginGrade { client, grade } => Some(Call::Begin(Client(client), Grade(grade))),
            _ => plain_call(form),
        }
    }
}

impl ScriptRank for Due {
    ghost KIND = { dues };

    const KIND: RankKind = RankKind::Due;

    ghost call_of = { due_call };

    ghost asks = { Prim.search rules };

    fn call_of(form: Form) -> Option<Call<Due>> {
        match form {
            Form::BeginDue {
                client,
                minute,
                weight,
            } => Some(Call::Begin(Client(client), Due { minute, weight })),
            _ => plain_call(form),
        }
    }
}

// The call of a form that has no rank in it.
fn plain_call<K: Copy>(form: Form) -> Option<Call<K>>
    ensures { result ≡ plain_call form }
{
    Some(match form {
        Form::Open { .. } | Form::BeginGrade { .. } | Form::BeginDue { .. } => return None,
        Form::Lock {
            client,
            kind,
            element,
        } => Call::Lock(Client(client), kind, Element(element)),
        Form::Read { client, element } => Call::Read(Client(client), Element(element)),
        Form::Change {
            client,
            element,
            value,
        } => Call::Change(Client(client), Element(element), i64::from(value)),
        Form::Commit { client } => Call::Commit(Client(client)),
        Form::Back { client } => Call::WriteBack(Client(client)),
        Form::End { client } => Call::End(Client(client)),
        Form::GiveUp { client } => Call::GiveUp(Client(client)),
        Form::Clear { client } => Call::Clear(Client(client)),
        Form::Bind { pointer, element } => Call::Bind(Pointer(pointer), Element(element)),
        Form::Remove { pointer } => Call::Remove(Pointer(pointer)),
        Form::Get { pointer } => Call::HardRead(Pointer(pointer)),
        Form::Put { pointer, value } => Call::HardWrite(Pointer(pointer), i64::from(value)),
    })
}
