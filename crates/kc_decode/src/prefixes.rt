//! Which prefixes a form takes, this project's own rule: 65, or a bit of REX, may be there only where the
//! form has what it changes. REX.B may be there without effect, as before memory without a base.

ghost use Rattle.std.specs.Prelude.{◌≡◌, ◌||◌, not, if◌then◌else◌};
ghost use Rattle.kc_insn.specs.Spells.{has_rm as form_has_rm, has_reg as form_has_reg, has_register as form_has_register, has_access as form_has_access, has_width as form_has_width, needs_w as form_needs_w, permits_rex as form_permits_rex, permits as form_permits};
ghost use Rattle.kc_decode.specs.Views.{form_of};

use crate::form::Form;
use crate::operand::Head;
use kc_insn::Rex;

fn has_rm(form: Form) -> bool
    ensures { result ≡ form_has_rm (form_of form) }
{
    matches!(
        form,
        Form::RmReg(_)
            | Form::MovLoad
            | Form::AluLoad(_)
            | Form::Lea
            | Form::RmImm(_, _)
            | Form::TestByte
            | Form::Bit
            | Form::PushRm
            | Form::PopRm
            | Form::Nop
    )
}

fn has_reg(form: Form) -> bool
    ensures { result ≡ form_has_reg (form_of form) }
{
    matches!(
        form,
        Form::RmReg(_) | Form::MovLoad | Form::AluLoad(_) | Form::Lea
    )
}

fn has_register(form: Form) -> bool
    ensures { result ≡ form_has_register (form_of form) }
{
    has_rm(form)
        || matches!(
            form,
            Form::PushRegister(_)
                | Form::PopRegister(_)
                | Form::RegisterImm(_)
                | Form::ReadCr3
                | Form::WriteCr3
                | Form::GsBase
        )
}

fn has_access(form: Form) -> bool
    ensures { result ≡ form_has_access (form_of form) }
{
    has_rm(form) && !matches!(form, Form::Lea | Form::Nop)
}

fn has_width(form: Form) -> bool
    ensures { result ≡ form_has_width (form_of form) }
{
    matches!(
        form,
        Form::RegisterImm(_)
            | Form::RmReg(_)
            | Form::MovLoad
            | Form::AluLoad(_)
            | Form::Lea
            | Form::RmImm(_, _)
            | Form::Bit
            | Form::TestRax
    )
}

fn needs_w(form: Form) -> bool
    ensures { result ≡ form_needs_w (form_of form) }
{
    matches!(form, Form::PlainW(_) | Form::GsBase)
}

fn permits_width(form: Form, w: bool) -> bool
    ensures { result
        ≡ (if w then form_has_width (form_of form) || form_needs_w (form_of form) else not (form_needs_w (form_of form))) }
{
    if w {
        has_width(form) || needs_w(form)
    } else {
        !needs_w(form)
    }
}

fn permits_rex(form: Form, rex: Option<Rex>) -> bool
    ensures { result ≡ form_permits_rex (form_of form) rex }
{
    match rex {
        None => !needs_w(form),
        Some(rex) => {
            permits_width(form, rex.w)
                && (!rex.r || has_reg(form))
                && (!rex.x || has_rm(form))
                && (!rex.b || has_register(form))
                && (rex.w || rex.r || rex.x || rex.b || has_register(form))
        }
    }
}

/// Whether the prefix 65 and REX may stand before a form, as they do here.
pub fn permits(form: Form, head: Head) -> bool
    ensures { result ≡ form_permits (form_of form) head.gs head.rex }
{
    (!head.gs || has_access(form)) && permits_rex(form, head.rex)
}
