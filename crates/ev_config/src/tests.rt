//! The summary of a valid configuration, and the faults of invalid ones. The ranges are those of
//! docs/configuration.md.

use crate::{Use, config_for, put_refusal, put_summary};
use ether_wire::Page;
use ev_links::DeviceName;
use std::alloc::Global;
use std::test::Fail;

// Edge 1 has one port.
const ONE: &str = "[[edge]]
address = \"10.0.0.1\"
bridge = \"02:aa:00:00:00:01\"
vnis = [5001]
[[edge.port]]
vni = 5001
local = \"127.0.0.1:20001\"
remote = \"127.0.0.1:30001\"
";

// Edge 2 has three ports, and serves one VNI more than edge 1.
const TWO: &str = "[[edge]]
address = \"10.0.0.2\"
bridge = \"02:aa:00:00:00:02\"
vnis = [5002, 5001]
[[edge.port]]
vni = 5001
[[edge.port]]
vni = 5002
[[edge.port]]
vni = 5001
";

// An edge with a port, whose endpoints or device are yet to come.
const BARE: &str = "[[edge]]
address = \"10.0.0.1\"
bridge = \"02:aa:00:00:00:01\"
vnis = [5001]
[[edge.port]]
vni = 5001
";

// A text of parts, one after the other.
fn joined(alloc: Global, parts: &[&str]) -> Result<String, Fail> {
    let mut text = String::new(alloc);
    for part in parts {
        text.push_str(part)?;
    }
    Ok(text)
}

// Whether a text is right for a use, with this summary.
fn is_right(alloc: Global, text: &str, wanted: Use, summary: &[u8]) -> bool {
    match config_for(alloc, text, wanted) {
        Ok(config) => {
            let mut page = Page::<1024>::new();
            put_summary(&mut page, &config).is_ok() && page.octets() == summary
        }
        Err(_) => false,
    }
}

// Whether a text is wrong for a use, with these lines about it.
fn is_wrong_for(alloc: Global, text: &str, wanted: Use, lines: &[u8]) -> bool {
    let mut page = Page::<4096>::new();
    let is_told = put_refusal(&mut page, alloc, wanted, text, None).is_ok();
    is_told && config_for(alloc, text, wanted).is_err() && page.octets() == lines
}

// Whether a text is wrong for any use, with these lines about it.
fn is_wrong(alloc: Global, text: &str, lines: &[u8]) -> bool {
    is_wrong_for(alloc, text, Use::Any, lines)
}

// Whether a port with this key is right in a run, and has this device and no endpoints.
fn is_device(alloc: Global, key: &str, name: &[u8]) -> Result<bool, Fail> {
    let text = joined(alloc, &[BARE, key])?;
    let Ok(config) = config_for(alloc, text.as_str(), Use::Run) else {
        return Ok(false);
    };
    let Some(links) = config.links.first() else {
        return Ok(false);
    };
    Ok(match links.as_slice() {
        [link] => {
            let found = link.device;
            found.is_some()
                && found == DeviceName::read_text(name)
                && link.local.is_none()
                && link.remote.is_none()
        }
        _ => false,
    })
}

// Whether a port with these keys is wrong in a run, with these lines about it.
fn is_wrong_in_a_run(alloc: Global, keys: &str, lines: &[u8]) -> Result<bool, Fail> {
    let text = joined(alloc, &[BARE, keys])?;
    Ok(is_wrong_for(alloc, text.as_str(), Use::Run, lines))
}

#[test]
fn right_text_is_read(rt: HostRuntime) -> Result<(), Fail> {
    assert!(rt; config_for(rt.alloc(), ONE, Use::Any).is_ok());
    assert!(rt; config_for(rt.alloc(), ONE, Use::Run).is_ok());
    Ok(())
}

#[test]
fn ports_of_all_edges_are_counted(rt: HostRuntime) -> Result<(), Fail> {
    let text = joined(rt.alloc(), &[ONE, TWO])?;
    let summary = b"ok: 2 edges, 4 ports, 2 VNIs\n";
    assert!(rt; is_right(rt.alloc(), text.as_str(), Use::Any, summary));
    Ok(())
}

#[test]
fn peers_are_counted(rt: HostRuntime) -> Result<(), Fail> {
    let control = "control = \"/tmp/control\"\n";
    let peers = "[[peer]]\naddress = \"10.0.0.8\"\n[[peer]]\naddress = \"10.0.0.9\"\n";
    let text = joined(rt.alloc(), &[control, ONE, peers])?;
    let summary = b"ok: 1 edge, 1 port, 1 VNI, 2 peers\n";
    assert!(rt; is_right(rt.alloc(), text.as_str(), Use::Serve, summary));
    Ok(())
}

// The words after the number of the line are those of the crate `toml`.
#[test]
fn line_of_a_syntax_error_is_written(rt: HostRuntime) -> Result<(), Fail> {
    for (text, lead) in [
        ("edge\n", b"line 1: ".as_slice()),
        ("a = 1\n\na = 2\n", b"line 3: ".as_slice()),
    ] {
        let mut page = Page::<4096>::new();
        let told = put_refusal(&mut page, rt.alloc(), Use::Any, text, None);
        assert!(rt; told.is_ok());
        assert!(rt; page.octets().starts_with(lead));
    }
    Ok(())
}

#[test]
fn edge_and_port_of_a_fault_are_written(rt: HostRuntime) -> Result<(), Fail> {
    let text = joined(rt.alloc(), &[ONE, TWO, "cost = 0\n"])?;
    let line = b"edge 2, port 3: cost is 0, allowed are 1 to 200000000\n";
    assert!(rt; is_wrong(rt.alloc(), text.as_str(), line));
    Ok(())
}

#[test]
fn ranges_of_an_edge_are_written(rt: HostRuntime) -> Result<(), Fail> {
    let keys = "priority = -1\nhello = -1\nforward_delay = -1\nhold = -1\nageing = -1\n\
capacity = -1\nbuckets = -1\nsalt = -1\nincarnation = -1\nmax_age = -1\nvnis = -1\n";
    let names = "[[edge]]\naddress = \"10.0.0.1\"\nbridge = \"02:aa:00:00:00:01\"\n";
    let text = joined(rt.alloc(), &[names, keys, "[[edge.port]]\nvni = 5001\n"])?;
    let lines = b"edge 1: vnis is -1, allowed are 1 to 64 different numbers, 0 to 16777215\n\
edge 1: priority is -1, allowed are 0 to 61440 in steps of 4096\n\
edge 1: hello is -1, allowed are 1 to 2\n\
edge 1: max_age is -1, allowed are 6 to 40, at least 2 * (hello + 1), \
at most 2 * (forward_delay - 1)\n\
edge 1: forward_delay is -1, allowed are 4 to 30\n\
edge 1: hold is -1, allowed are 1 to 10\n\
edge 1: ageing is -1, allowed are 10 to 1000000\n\
edge 1: capacity is -1, allowed are 1 to 65536\n\
edge 1: buckets is -1, allowed are 1 to 65536\n\
edge 1: salt is -1, allowed are 0 to 9223372036854775807\n\
edge 1: incarnation is -1, allowed are 0 to 4294967295\n";
    assert!(rt; is_wrong(rt.alloc(), text.as_str(), lines));
    Ok(())
}

#[test]
fn ranges_of_a_port_are_written(rt: HostRuntime) -> Result<(), Fail> {
    let keys = "cost = -1\npriority = -1\nadmin_edge = -1\nauto_edge = -1\npoint_to_point = -1\n\
stations = -1\nnew_stations = -1\nstorm = -1\n";
    let names = "[[edge]]\naddress = \"10.0.0.1\"\nbridge = \"02:aa:00:00:00:01\"\nvnis = [5001]\n";
    let text = joined(rt.alloc(), &[names, "[[edge.port]]\nvni = 5001\n", keys])?;
    let lines = b"edge 1, port 1: cost is -1, allowed are 1 to 200000000\n\
edge 1, port 1: priority is -1, allowed are 0 to 240 in steps of 16\n\
edge 1, port 1: admin_edge is -1, allowed are true and false\n\
edge 1, port 1: auto_edge is -1, allowed are true and false\n\
edge 1, port 1: point_to_point is -1, allowed are true and false\n\
edge 1, port 1: stations is -1, allowed are 1 to 65536\n\
edge 1, port 1: new_stations is -1, allowed are 1 to 4294967295\n\
edge 1, port 1: storm is -1, allowed are 0 to 4294967295\n";
    assert!(rt; is_wrong(rt.alloc(), text.as_str(), lines));
    Ok(())
}

#[test]
fn port_of_a_run_may_have_a_device(rt: HostRuntime) -> Result<(), Fail> {
    assert!(rt; is_device(rt.alloc(), "device = \"tap0\"\n", b"tap0")?);
    assert!(rt; is_device(rt.alloc(), "device = \"a\"\n", b"a")?);
    assert!(rt; is_device(rt.alloc(), "device = \"Tap-1.20_x\"\n", b"Tap-1.20_x")?);
    assert!(rt;
        is_device(
            rt.alloc(),
            "device = \"abcdefghijklmno\"\n",
            b"abcdefghijklmno"
        )?
    );
    Ok(())
}

#[test]
fn port_that_is_served_may_have_a_device(rt: HostRuntime) -> Result<(), Fail> {
    let control = "control = \"/tmp/control\"\n";
    let text = joined(rt.alloc(), &[control, BARE, "device = \"tap0\"\n"])?;
    let summary = b"ok: 1 edge, 1 port, 1 VNI\n";
    assert!(rt; is_right(rt.alloc(), text.as_str(), Use::Serve, summary));
    Ok(())
}

#[test]
fn wrong_names_of_devices_are_written(rt: HostRuntime) -> Result<(), Fail> {
    for (key, line) in [
        (
            "device = \"\"\n",
            b"edge 1, port 1: device is '', allowed is the name of a device that no port before has, \
1 to 15 letters, digits, '.', '-' and '_', as 'tap0'\n"
                .as_slice(),
        ),
        (
            "device = \"abcdefghijklmnop\"\n",
            b"edge 1, port 1: device is 'abcdefghijklmnop', allowed is the name of a device that no port before has, \
1 to 15 letters, digits, '.', '-' and '_', as 'tap0'\n"
                .as_slice(),
        ),
        (
            "device = \"tap/0\"\n",
            b"edge 1, port 1: device is 'tap/0', allowed is the name of a device that no port before has, \
1 to 15 letters, digits, '.', '-' and '_', as 'tap0'\n"
                .as_slice(),
        ),
        (
            "device = 0\n",
            b"edge 1, port 1: device is 0, allowed is the name of a device that no port before has, \
1 to 15 letters, digits, '.', '-' and '_', as 'tap0'\n"
                .as_slice(),
        ),
    ] {
        assert!(rt; is_wrong_in_a_run(rt.alloc(), key, line)?);
    }
    Ok(())
}

#[test]
fn endpoints_beside_a_device_are_faults(rt: HostRuntime) -> Result<(), Fail> {
    let both = "local = \"127.0.0.1:20001\"\nremote = \"127.0.0.1:30001\"\ndevice = \"tap0\"\n";
    let lines = b"edge 1, port 1: local is '127.0.0.1:20001', \
which no port with `device` has: a port has either `device`, or `local` and `remote`\n\
edge 1, port 1: remote is '127.0.0.1:30001', \
which no port with `device` has: a port has either `device`, or `local` and `remote`\n";
    assert!(rt; is_wrong_in_a_run(rt.alloc(), both, lines)?);
    let one = "remote = \"127.0.0.1:30001\"\ndevice = \"\"\n";
    let lines = b"edge 1, port 1: remote is '127.0.0.1:30001', \
which no port with `device` has: a port has either `device`, or `local` and `remote`\n\
edge 1, port 1: device is '', allowed is the name of a device that no port before has, \
1 to 15 letters, digits, '.', '-' and '_', as 'tap0'\n";
    assert!(rt; is_wrong_in_a_run(rt.alloc(), one, lines)?);
    Ok(())
}

#[test]
fn port_without_a_device_needs_both_endpoints(rt: HostRuntime) -> Result<(), Fail> {
    let lines = b"edge 1, port 1: local is missing, \
allowed is an IPv4 address with a UDP port, as '127.0.0.1:5000'\n\
edge 1, port 1: remote is missing, \
allowed is an IPv4 address with a UDP port, as '127.0.0.1:5000'\n";
    assert!(rt; is_wrong_in_a_run(rt.alloc(), "", lines)?);
    Ok(())
}

#[test]
fn simulation_has_no_devices(rt: HostRuntime) -> Result<(), Fail> {
    let text = joined(rt.alloc(), &[BARE, "device = \"tap0\"\n"])?;
    let line = b"edge 1, port 1: device is 'tap0', \
which is a key of what `run` and `serve` run alone: use `check --run` or `check --serve`\n";
    assert!(rt; is_wrong(rt.alloc(), text.as_str(), line));
    Ok(())
}

#[test]
fn device_that_two_ports_have_is_a_fault(rt: HostRuntime) -> Result<(), Fail> {
    let alloc = rt.alloc();
    let other = "[[edge]]\naddress = \"10.0.0.2\"\nbridge = \"02:aa:00:00:00:02\"\nvnis = [5001]\n";
    let port = "[[edge.port]]\nvni = 5001\n";
    let first = "device = \"tap0\"\n";
    let second = "device = \"tap1\"\n";
    let third = "device = \"tap2\"\n";
    let right = joined(alloc, &[BARE, first, port, second, other, port, third])?;
    let summary = b"ok: 2 edges, 3 ports, 1 VNI\n";
    assert!(rt; is_right(alloc, right.as_str(), Use::Run, summary));
    let wrong = joined(
        alloc,
        &[BARE, first, port, second, port, second, other, port, second],
    )?;
    let lines = b"edge 1, port 3: device is 'tap1', which edge 1, port 2 has, \
allowed is the name of a device that no port before has, \
1 to 15 letters, digits, '.', '-' and '_', as 'tap0'\n\
edge 2, port 1: device is 'tap1', which edge 1, port 2 has, \
allowed is the name of a device that no port before has, \
1 to 15 letters, digits, '.', '-' and '_', as 'tap0'\n";
    assert!(rt; is_wrong_for(alloc, wrong.as_str(), Use::Run, lines));
    Ok(())
}

#[test]
fn simulation_names_each_device_once(rt: HostRuntime) -> Result<(), Fail> {
    let keys = "device = \"tap0\"\n[[edge.port]]\nvni = 5001\ndevice = \"tap0\"\n";
    let text = joined(rt.alloc(), &[BARE, keys])?;
    let lines = b"edge 1, port 1: device is 'tap0', \
which is a key of what `run` and `serve` run alone: use `check --run` or `check --serve`\n\
edge 1, port 2: device is 'tap0', \
which is a key of what `run` and `serve` run alone: use `check --run` or `check --serve`\n";
    assert!(rt; is_wrong(rt.alloc(), text.as_str(), lines));
    Ok(())
}
