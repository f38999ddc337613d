//! Worked rows: lines of the commands, and their objects by docs/FORMATS.md.

use std::alloc::AllocError;
use tool_json::message::Telling;
use tool_json::messages::{certificate_json, messages_json};

#[test]
fn tells_places(rt: HostRuntime) -> Result<(), AllocError> {
    let text =
        "profile:3:5: E21 name x is defined twice\ncertificate:4: K1 bad word\nbundle: I4 bad part items\nitem 2: F1 HeaderLength\n";
    let told = messages_json(rt.alloc(), Telling::Faults, text)?;
    assert_eq!(rt;
        told.as_str(),
        "{\"kind\":\"fault\",\"part\":\"profile\",\"line\":3,\"column\":5,\"number\":null,\"code\":\"E21\",\"text\":\"name x is defined twice\"}\n{\"kind\":\"fault\",\"part\":\"certificate\",\"line\":4,\"column\":null,\"number\":null,\"code\":\"K1\",\"text\":\"bad word\"}\n{\"kind\":\"fault\",\"part\":\"bundle\",\"line\":null,\"column\":null,\"number\":null,\"code\":\"I4\",\"text\":\"bad part items\"}\n{\"kind\":\"fault\",\"part\":\"item\",\"line\":null,\"column\":null,\"number\":2,\"code\":\"F1\",\"text\":\"HeaderLength\"}\n"
    );
    Ok(())
}

#[test]
fn tells_notes(rt: HostRuntime) -> Result<(), AllocError> {
    let text = "accepted\n4:7: in m.f\n1:1: E1 begins with 0, b with 1\ncertificate:5: here\n";
    let told = messages_json(rt.alloc(), Telling::Judging, text)?;
    assert_eq!(rt;
        told.as_str(),
        "{\"kind\":\"accepted\"}\n{\"kind\":\"note\",\"part\":\"profile\",\"line\":4,\"column\":7,\"text\":\"in m.f\"}\n{\"kind\":\"note\",\"part\":\"profile\",\"line\":1,\"column\":1,\"text\":\"E1 begins with 0, b with 1\"}\n{\"kind\":\"note\",\"part\":\"certificate\",\"line\":5,\"column\":null,\"text\":\"here\"}\n"
    );
    Ok(())
}

#[test]
fn tells_warnings(rt: HostRuntime) -> Result<(), AllocError> {
    let text =
        "3:1: warning m.f: a wrong reference is not noticed\n5:1: warning m.g is never used: it needs a\n7:1: warning: nothing is warned of\ncontext: warning a.b: no format has a field there\n03:1: warning m: not a place\n";
    let told = messages_json(rt.alloc(), Telling::Warning, text)?;
    assert_eq!(rt;
        told.as_str(),
        "{\"kind\":\"warning\",\"part\":\"profile\",\"line\":3,\"column\":1,\"subject\":\"m.f\",\"text\":\"a wrong reference is not noticed\"}\n{\"kind\":\"warning\",\"part\":\"profile\",\"line\":5,\"column\":1,\"subject\":\"m.g\",\"text\":\"is never used: it needs a\"}\n{\"kind\":\"warning\",\"part\":\"profile\",\"line\":7,\"column\":1,\"subject\":null,\"text\":\"nothing is warned of\"}\n{\"kind\":\"warning\",\"part\":\"context\",\"line\":null,\"column\":null,\"subject\":\"a.b\",\"text\":\"no format has a field there\"}\n{\"kind\":\"remark\",\"text\":\"03:1: warning m: not a place\"}\n"
    );
    Ok(())
}

#[test]
fn tells_reasons(rt: HostRuntime) -> Result<(), AllocError> {
    let text =
        "item 1 full 17 bits\npacket 2: U2 Refused m.f\n100:35:   m.f: nothing goes in \"tos\"\nasked msn is missing\n";
    let told = messages_json(rt.alloc(), Telling::Reasons, text)?;
    assert_eq!(rt;
        told.as_str(),
        "{\"kind\":\"item\",\"number\":1,\"format\":\"full\",\"bits\":17}\n{\"kind\":\"fault\",\"part\":\"packet\",\"line\":null,\"column\":null,\"number\":2,\"code\":\"U2\",\"text\":\"Refused m.f\"}\n{\"kind\":\"reason\",\"line\":100,\"column\":35,\"depth\":1,\"subject\":\"m.f\",\"text\":\"nothing goes in \\\"tos\\\"\"}\n{\"kind\":\"remark\",\"text\":\"asked msn is missing\"}\n"
    );
    Ok(())
}

#[test]
fn tells_a_certificate(rt: HostRuntime) -> Result<(), AllocError> {
    let told = certificate_json(rt.alloc(), "rohcfn-certificate 1\nmethod m\nend\n")?;
    assert_eq!(rt;
        told.as_str(),
        "{\"kind\":\"certificate\",\"version\":1,\"lines\":[\"rohcfn-certificate 1\",\"method m\",\"end\"]}\n"
    );
    Ok(())
}

#[test]
fn tells_what_is_avoided(rt: HostRuntime) -> Result<(), AllocError> {
    let text =
        "format short items 0 others 84 refused 0\nformat a.b items 1 others 2 refused 3 without 4\nitems 83 first 2 by full: it fits with 19 bits, and comes later\nitems 1 first 1 by ir\n";
    let told = messages_json(rt.alloc(), Telling::Reasons, text)?;
    assert_eq!(rt;
        told.as_str(),
        "{\"kind\":\"avoided\",\"format\":\"short\",\"items\":0,\"others\":84,\"refused\":0,\"without\":null}\n{\"kind\":\"avoided\",\"format\":\"a.b\",\"items\":1,\"others\":2,\"refused\":3,\"without\":4}\n{\"kind\":\"against\",\"items\":83,\"first\":2,\"by\":\"full\",\"bits\":19}\n{\"kind\":\"against\",\"items\":1,\"first\":1,\"by\":\"ir\",\"bits\":null}\n"
    );
    Ok(())
}
