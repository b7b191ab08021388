//! Element texts: which are read, and where one that isn't is refused.
use pap_reader::read_elements;
use std::test::Fail;
use trial_rows::all_rows;

/// Texts, and their first fault.
const TEXTS: &str =
    r#"<PAP><METHODS><MAIN/></METHODS><INTERFACE><OUTPUTS><OUTPUT name='A' type='int'/></OUTPUTS></INTERFACE></PAP> => read
 => Element { at: 0 }
<PAP => Text { at: 0 }
<PAP></PAP> => Element { at: 5 }
<PAP a="1" a="2"> => Attribute { at: 0 }
<PAP><METHODS><MAIN> ~ 20001 x <IF expr=''><THEN/></IF> => Many { which: Statements }"#;

/// Writes `read`, or a text's fault.
fn read(asked: &str, text: &mut String) -> Result<(), Fail> {
    match read_elements(*text.allocator(), asked.as_bytes()) {
        Ok(_) => text.push_str("read")?,
        Err(fault) => write!(text, "{fault:?}")?,
    }
    Ok(())
}

#[test]
fn each_text_has_its_elements_or_its_fault(rt: HostRuntime) -> Result<(), Fail> {
    all_rows(rt.alloc(), TEXTS, read)
}
