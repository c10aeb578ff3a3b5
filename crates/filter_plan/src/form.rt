//! The form that the options ask for.

ghost use Rattle.std.specs.Prelude.{◌≡◌, IfOk, IsErrOf};
ghost use Rattle.clap.specs.Words.{found_of, rows_of};
ghost use Rattle.filter_plan.specs.inner.Forms.{IsForm, flags_of};
ghost use Rattle.filter_plan.specs.declared.plan.Form.{Form};

use crate::values::stands;
use crate::{Form, UsageFault};
use clap::ArgMatches;

/// All forms.
static FORMS: [Form; 7] = [
    Form::AsIs,
    Form::Deterministic,
    Form::Parity,
    Form::Buchi,
    Form::RemoveFin,
    Form::Dnf,
    Form::Monitor,
];

/// The form whose flag is given, `AsIs` where none is, or `Usage` exactly where several flags of forms are given.
pub(crate) fn form_of(matches: &ArgMatches) -> Result<Form, UsageFault>
    ensures form { IfOk result (IsForm (rows_of (found_of matches.now))) }
    ensures usage { IsErrOf result UsageFault.Usage → (form : Form) → IsForm (rows_of (found_of matches.now)) form → ⊥ }
{
    form_with([
        stands(matches, "deterministic"),
        stands(matches, "parity"),
        stands(matches, "buchi"),
        stands(matches, "remove-fin"),
        stands(matches, "dnf-acceptance"),
        stands(matches, "monitor"),
    ])
}

/// The form with exactly these flags.
fn form_with(standing: [bool; 6]) -> Result<Form, UsageFault>
    ensures form { IfOk result (λ form. flags_of form ≡ standing) }
    ensures usage { IsErrOf result UsageFault.Usage → (form : Form) → flags_of form ≡ standing → ⊥ }
{
    'forms: for form in FORMS.as_slice() {
        if flags(*form) == standing {
            return Ok(*form);
        }
    }
    Err(UsageFault::Usage)
}

/// The flags of a form: its own one, or none for `AsIs`.
fn flags(form: Form) -> [bool; 6]
    ensures { result ≡ flags_of form }
{
    [
        form == Form::Deterministic,
        form == Form::Parity,
        form == Form::Buchi,
        form == Form::RemoveFin,
        form == Form::Dnf,
        form == Form::Monitor,
    ]
}
