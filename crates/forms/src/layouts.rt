// The two forms as types. A function over a layout is built for each form by itself, so that the compiler knows the form's numbers there.
ghost use Rattle.std.specs.Prelude.{◌≡◌, ◌≤◌};
ghost use Rattle.forms.specs.declared.Form.{Form};
ghost use Rattle.forms.specs.Forms.{srv6_form, mpls_form, entry_size};
ghost use Rattle.forms.specs.Sized.{Sized};

use super::Form;

// A type that stands for a form: its parts fit into a segment, and a label stack entry into its SID.
pub trait Layout {
    ghost layout: { Form };

    fn form() -> Form
        ensures form { result ≡ layout }
        ensures sized { Sized layout }
        ensures entry { entry_size ≤ layout.sid };
}

pub struct Srv6;

impl Layout for Srv6 {
    ghost layout = { srv6_form };

    fn form() -> Form {
        super::srv6()
    }
}

pub struct Mpls;

impl Layout for Mpls {
    ghost layout = { mpls_form };

    fn form() -> Form {
        super::mpls()
    }
}
