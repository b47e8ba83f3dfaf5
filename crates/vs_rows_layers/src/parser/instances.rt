//! Headers and instances as text.
use crate::parser::trees::{form_shown, name_shown, put_headed, shown, value_shown};
use vs_row_files::Text;
use vs_syntax::{
    Connection, Connections, Constant, Direction, Expr, HeaderParameter, Instance, Module,
    ParameterForm, Port, PortForm, PortKind,
};

/// What is said of parameters.
fn parameter_form_shown(form: &ParameterForm, text: &mut Text) {
    match form {
        ParameterForm::Integer => text.put(b" integer"),
        ParameterForm::Vector(form) => form_shown(form, text),
    }
}

/// Parameters of an item that begins with a word, with what is said of them.
pub(crate) fn constants_shown(
    word: &[u8],
    form: &ParameterForm,
    constants: &[Constant],
    text: &mut Text,
) {
    text.put(word);
    parameter_form_shown(form, text);
    for constant in constants {
        name_shown(&constant.name, text);
        put_headed(b" = ", &constant.value, text);
    }
}

/// What stands at the end of a connection; a bar where there is nothing.
fn end_shown(end: &Option<Expr>, text: &mut Text) {
    match end {
        Some(e) => shown(e, text),
        None => text.put(b"|"),
    }
}

/// A connection by name.
fn connection_shown(connection: &Connection, text: &mut Text) {
    text.put(b" .");
    text.put(&connection.name);
    text.put(b" ");
    end_shown(&connection.value, text);
}

/// Connections in parentheses.
fn connections_shown(connections: &Connections, text: &mut Text) {
    text.put(b" (");
    match connections {
        Connections::Ordered(first, rest) => {
            end_shown(first, text);
            for end in rest {
                text.put(b" ");
                end_shown(end, text);
            }
        }
        Connections::Named(first, rest) => {
            connection_shown(first, text);
            for connection in rest {
                connection_shown(connection, text);
            }
        }
    }
    text.put(b")");
}

/// Instances of a module, with what overrides its parameters.
pub(crate) fn instances_shown(
    overrides: &Option<Connections>,
    instances: &[Instance],
    text: &mut Text,
) {
    if let Some(connections) = overrides {
        text.put(b" #");
        connections_shown(connections, text);
    }
    for instance in instances {
        name_shown(&instance.name, text);
        connections_shown(&instance.ports, text);
    }
}

/// A parameter of a header.
fn header_parameter_shown(parameter: &HeaderParameter, text: &mut Text) {
    text.put(b" #");
    if let Some(form) = &parameter.form {
        text.put(b"parameter");
        parameter_form_shown(form, text);
        text.put(b" ");
    }
    text.put(&parameter.name);
    put_headed(b" = ", &parameter.value, text);
}

/// What stands before the names of ports.
pub(crate) fn port_form_shown(form: &PortForm, text: &mut Text) {
    let direction: &[u8] = match form.direction {
        Direction::Input => b"input",
        Direction::Output => b"output",
    };
    let kind: &[u8] = match form.kind {
        None => b"",
        Some(PortKind::Wire) => b" wire",
        Some(PortKind::Reg) => b" reg",
        Some(PortKind::Integer) => b" integer",
    };
    text.put(direction);
    text.put(kind);
    form_shown(&form.form, text);
}

/// A port of a header.
fn port_shown(port: &Port, text: &mut Text) {
    text.put(b" ,");
    if let Some(form) = &port.form {
        port_form_shown(form, text);
        text.put(b" ");
    }
    text.put(&port.name);
    value_shown(&port.value, text);
}

/// The name and the header of a module in one line.
pub(crate) fn header_shown(module: &Module, text: &mut Text) {
    text.put(&module.name);
    for parameter in &module.parameters {
        header_parameter_shown(parameter, text);
    }
    if let Some(ports) = &module.ports {
        text.put(b" ports");
        for port in ports {
            port_shown(port, text);
        }
    }
}
