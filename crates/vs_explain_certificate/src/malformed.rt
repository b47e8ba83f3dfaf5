//! Bytes that are no certificate.

use crate::breaks::{Break, Reason, break_of};
use crate::forms::Form;
use crate::walk::{Flaw, Whole, Why, walk_over};
use vs_certificate::{CertFault, Rules};
use vs_explain_outline::Page;

/// The most bytes of a certificate: 16 MiB.
const LENGTH_LIMIT: usize = 16777216;

/// How many bytes of a line are shown.
const SHOWN: usize = 60;

/// What is said in the end of a certificate that is to be made once more.
const ANEW: &str = "Make the certificate anew: `vsim certify`.\n";

/// Where bytes stand that are to be a certificate.
#[derive(Clone, Copy, PartialEq, Eq)]
pub enum CertificatePlace {
    /// On the first line of an input, in front of the source.
    First,
    /// Alone.
    Alone,
}

impl CertificatePlace {
    /// Where a certificate is wanted.
    fn wanted(self) -> &'static str {
        match self {
            CertificatePlace::First =>
                "This is Verilog, and a certificate is wanted on the first line.\n",
            CertificatePlace::Alone => "This is Verilog, and a certificate is wanted.\n",
        }
    }

    /// What is to be done about Verilog that stands there.
    fn instead(self) -> &'static str {
        match self {
            CertificatePlace::First => IN_FRONT,
            CertificatePlace::Alone => MADE_BY,
        }
    }

    /// What a certificate is.
    fn form(self) -> &'static str {
        match self {
            CertificatePlace::First =>
                "A certificate is one line of JSON, from `{` to `}`; the source comes after it.\n",
            CertificatePlace::Alone => "A certificate is a text in JSON, from `{` to `}`.\n",
        }
    }
}

/// How a certificate is made.
const MADE_BY: &str =
    "Give a certificate of the design: `vsim certify --top t t.v >t.cert`, then `vsim check --top t t.v <t.cert`.\n";

/// How a certificate is put in front of a source.
const IN_FRONT: &str =
    "Put a certificate in front of the source: `vsim certify --top t <t.v >t.cert`, then `cat t.cert t.v | vsim check --top t`.\n";

/// Whether a line is one of a source rather than a certificate: it has visible bytes, and no brace or bracket in front.
fn looks_like_source(line: &[u8]) -> bool {
    let visible = line.iter().find(|byte| !byte.is_ascii_whitespace());
    match visible {
        Some(byte) => byte.is_ascii_alphabetic() || matches!(*byte, b'/' | b'`' | b'('),
        None => false,
    }
}

/// Says that no certificate stands in front of a source that is refused, where the line in front looks like one of the source. What is said of
/// the source comes after it, with lines that are counted from the second one.
pub fn put_forgotten(page: &mut Page, certificate: &[u8]) {
    if !looks_like_source(certificate) {
        return;
    }
    page.put("The first line of the input is taken for the certificate, but it is Verilog: ");
    page.put_name(
        certificate
            .get(..SHOWN.min(certificate.len()))
            .unwrap_or(&[]),
    );
    page.put(".\n");
    page.put(IN_FRONT);
    page.put("Read without that line, the source is refused at ");
}

/// Puts a line and a column of a certificate, its line, and a mark under the place.
fn put_at(page: &mut Page, place: usize) {
    page.put("In the certificate, ");
    page.put_certificate_place(place);
}

/// Puts why a certificate is no JSON text.
fn put_reason(page: &mut Page, certificate: &[u8], place: CertificatePlace, at: Break) {
    if certificate.is_empty() {
        return page.put("This line is empty, and a certificate is wanted.\n");
    }
    if looks_like_source(certificate) {
        return page.put(place.wanted());
    }
    let is_text = certificate.get(at.place) == Some(&b'"');
    page.put(match (at.reason, is_text) {
        (Reason::NoUtf8, _) => "This byte isn't UTF-8.\n",
        (Reason::Ended, _) =>
            "The certificate ends here, too early: a brace or a bracket is still open, or a value is missing.\n",
        (Reason::Misplaced, true) =>
            "This string can't stand here, isn't closed, or has a backslash or a byte that no string has.\n",
        (Reason::Misplaced, false) => "What begins here can't stand here in JSON.\n",
        (Reason::NoName, _) =>
            "Here the name of a member with a colon after it is wanted, or the end of the object.\n",
        (Reason::TooDeep, _) => "Here lists and objects nest more than 127 deep.\n",
        (Reason::TooLarge, _) => "This number is too large.\n",
        (Reason::NotOne, _) => "A certificate is one value, which has ended before this place.\n",
    });
}

/// Puts where and why bytes are no JSON text.
fn put_no_json(page: &mut Page, certificate: &[u8], place: CertificatePlace) {
    if certificate.len() > LENGTH_LIMIT {
        put_at(page, LENGTH_LIMIT);
        return page.put("The certificate has more than 16777216 bytes, the most that are read.\n");
    }
    let at = match break_of(page.alloc(), certificate) {
        Ok(Some(at)) => at,
        Ok(None) => Break {
            reason: Reason::Misplaced,
            place: 0,
        },
        Err(_) => return page.leave_out(),
    };
    put_at(page, at.place);
    put_reason(page, certificate, place, at);
    page.put(if looks_like_source(certificate) {
        place.instead()
    } else {
        place.form()
    });
}

/// Puts the members that an object lacks.
fn put_missing(page: &mut Page, form: Form, missing: &[bool]) {
    let mut count = 0usize;
    page.put("The object that ends here has no member ");
    for (number, is_missing) in missing.iter().enumerate() {
        if let (true, Some((name, _form))) = (*is_missing, form.member(number)) {
            page.put(if count == 0 { "" } else { ", " });
            page.put_name(name.as_bytes());
            count = count.saturating_add(1);
        }
    }
    page.put(".\n");
}

/// Puts why a value of a certificate is refused.
fn put_why(page: &mut Page, rules: Rules, why: Why) {
    match why {
        Why::Other(form) => {
            page.put("Here ");
            page.put(form.words(rules));
            page.put(" is wanted.\n");
        }
        Why::Lacks(form, missing) => put_missing(page, form, &missing),
        Why::Unknown(form) => {
            page.put("There is no such member: here ");
            page.put(form.words(rules));
            page.put(" is wanted.\n");
        }
        Why::AgainstKind => page.put(match rules {
            Rules::Narrow =>
                "This goes against the kind of its process: `slots` of a `delay` alone aren't empty, and the start of a `comb` alone isn't `none`.\n",
            Rules::Wide =>
                "This goes against the kind of its process: `slots` of a `delay` or `mixed` alone aren't empty, and the start of a `comb` alone isn't `none`.\n",
        }),
        Why::AgainstVersion => page.put(
            "Version 1 has no such thing: write `\"version\":2`, and whether it has `displays`.\n",
        ),
        Why::OfLater(form) => page.put(if form == Form::Kind {
            "Versions 1 and 2 have no such kind: write `\"version\":3`, and whether it has `displays`.\n"
        } else {
            "Versions 1 and 2 have no such mode: write `\"version\":3`, and whether it has `displays`.\n"
        }),
        Why::Long(most) => {
            page.put("This entry is one too many: the list has at most ");
            page.put_shown(most);
            page.put(".\n");
        }
        Why::Residue => page.put(
            "This residue is negative, not above the one before it, or not below the modulus.\n",
        ),
        Why::Modulus => page.put("This modulus isn't 1 to 4294967296.\n"),
    }
}

/// Puts a value that is refused; where none was found, the beginning of the certificate.
fn put_flaw(page: &mut Page, rules: Rules, flaw: Option<Flaw>) {
    match flaw {
        Some(flaw) => {
            put_at(page, flaw.place);
            put_why(page, rules, flaw.why);
        }
        None => put_at(page, 0),
    }
    page.put(ANEW);
}

/// Puts where a certificate has its version, which isn't read by these rules.
fn put_version(page: &mut Page, rules: Rules, whole: Whole) {
    put_at(page, whole.version.unwrap_or(0));
    match rules {
        Rules::Narrow if whole.is_third => page.put(
            "This version is neither 1 nor 2. With `--rules wide` version 3 is read too.\n",
        ),
        Rules::Narrow => {
            page.put("This version is neither 1 nor 2. ");
            page.put(ANEW);
        }
        Rules::Wide => {
            page.put("This version is none of 1, 2 and 3. ");
            page.put(ANEW);
        }
    }
}

/// Puts where a certificate that is a JSON text is refused.
fn put_refused(page: &mut Page, certificate: &[u8], rules: Rules, fault: CertFault) {
    let Ok(text) = str::from_utf8(certificate) else {
        return put_at(page, 0);
    };
    let Ok(whole) = walk_over(page.alloc(), text, rules, None) else {
        return page.leave_out();
    };
    if fault == CertFault::Version {
        return put_version(page, rules, whole);
    }
    if fault == CertFault::Shape {
        return put_flaw(page, rules, whole.flaw);
    }
    match walk_over(page.alloc(), text, rules, Some(whole.limits())) {
        Ok(limited) => put_flaw(page, rules, limited.flaw),
        Err(_) => page.leave_out(),
    }
}

/// Says where and why bytes are no certificate that is read by these rules.
pub fn explain_malformed(
    page: &mut Page,
    certificate: &[u8],
    rules: Rules,
    place: CertificatePlace,
    fault: CertFault,
) {
    match fault {
        CertFault::NotJson => put_no_json(page, certificate, place),
        CertFault::Memory => {}
        _ => put_refused(page, certificate, rules, fault),
    }
}
