//! The items of `afdx_frame`.

use afdx_frame::{
    Address, Datagram, IpFault, MacFault, MacView, Policing, Priority, Side, VlId, build, fcs,
    is_sealed, seal, vl_of,
};
use afdx_test_samples::{equal, hello};
use std::alloc::{AllocError, Global};
use std::test::Fail;

/// The place of a fault in the order in which they are answered.
fn mac_place(fault: MacFault) -> u8 {
    match fault {
        MacFault::TooShort => 1,
        MacFault::TooLong => 2,
        MacFault::BadFcs => 3,
        MacFault::BadAddress => 4,
    }
}

/// The place of a fault in the order in which they are answered.
fn ip_place(fault: IpFault) -> u8 {
    match fault {
        IpFault::NotIpv4 => 1,
        IpFault::BadIpHeader => 2,
        IpFault::Fragment => 3,
        IpFault::NotUdp => 4,
        IpFault::BadUdpLength => 5,
    }
}

/// What a frame belongs to, in numbers.
fn numbers(side: Side, policing: Policing, priority: Priority) -> (u8, u8, u8) {
    let side = match side {
        Side::A => 1,
        Side::B => 2,
    };
    let policing = match policing {
        Policing::Byte => 1,
        Policing::Frame => 2,
    };
    let priority = match priority {
        Priority::High => 1,
        Priority::Low => 2,
    };
    (side, policing, priority)
}

/// What a view of bytes tells.
fn head(bytes: &[u8]) -> Result<(VlId, u64, u8, u16), MacFault> {
    let view: MacView<'_> = MacView::parse(bytes)?;
    let vl: VlId = view.vl();
    let length: u64 = view.length();
    let sequence: u8 = view.sequence();
    let ether_type: u16 = view.ether_type();
    Ok((vl, length, sequence, ether_type))
}

/// What stands between the type and the sequence number.
fn body(bytes: &[u8]) -> &[u8] {
    let parsed: Result<MacView<'_>, MacFault> = MacView::parse(bytes);
    match parsed {
        Ok(view) => view.body(),
        Err(_) => &[],
    }
}

/// What the datagram of a frame tells.
fn carried(view: MacView<'_>) -> Result<(u16, u16, &[u8]), IpFault> {
    let datagram: Datagram<'_> = Datagram::parse(view)?;
    let from_port: u16 = datagram.from_port();
    let to_port: u16 = datagram.to_port();
    Ok((from_port, to_port, datagram.payload()))
}

/// The frame `hello` of link 1.
fn built(alloc: Global) -> Result<Vec<u8>, AllocError> {
    let address: Address = Address {
        vl: VlId(1),
        system_id: 1,
        partition: 1,
        from_udp: 1000,
        to_udp: 1000,
        least: 64,
    };
    let sequence: u8 = 0;
    let payload: &[u8] = b"hello";
    let frame: Result<Vec<u8>, AllocError> = build(alloc, &address, sequence, Side::A, payload);
    frame
}

/// Three letters with their check sequence.
fn sealed(alloc: Global) -> Result<Vec<u8>, AllocError> {
    let mut bytes: Vec<u8> = Vec::from_slice(alloc, b"abc")?;
    let answer: Result<(), AllocError> = seal(&mut bytes);
    answer?;
    Ok(bytes)
}

/// Whether three letters are sealed so.
fn seals(alloc: Global) -> Result<bool, AllocError> {
    let bytes = sealed(alloc)?;
    let sequence: u32 = fcs(b"abc");
    let is_right: bool = is_sealed(bytes.as_slice());
    Ok(is_right && sequence == 0x3524_41c2)
}

#[test]
fn frames(rt: HostRuntime) -> Result<(), Fail> {
    let frame = built(rt.alloc())?;
    let link: Option<VlId> = vl_of(frame.as_slice());
    equal(frame.as_slice(), hello(0).as_slice())?;
    equal(link, Some(VlId(1)))?;
    equal(head(frame.as_slice()), Ok((VlId(1), 64, 0, 0x0800)))?;
    equal(body(frame.as_slice()).len(), 45)
}

#[test]
fn datagrams(rt: HostRuntime) -> Result<(), Fail> {
    let frame = built(rt.alloc())?;
    let view: MacView<'_> = MacView::parse(frame.as_slice())?;
    equal(carried(view), Ok((1000, 1000, b"hello".as_slice())))
}

#[test]
fn words_of_a_frame(rt: HostRuntime) -> Result<(), Fail> {
    equal(seals(rt.alloc())?, true)?;
    equal(
        (
            mac_place(MacFault::BadAddress),
            ip_place(IpFault::BadUdpLength),
        ),
        (4, 5),
    )?;
    equal(numbers(Side::B, Policing::Frame, Priority::Low), (2, 2, 2))
}
