use head_scan::{RequestScan, ResponseScan};
use std::alloc::Global;
use std::test::Fail;

/// How many bytes of a response's head, taken one by one, are open in a row from the first.
fn open_bytes(head: &[u8]) -> usize {
    let mut scan = ResponseScan::start();
    for (index, byte) in head.chunks(1).enumerate() {
        scan.take(byte);
        if !scan.is_open(index + 1) {
            return index;
        }
    }
    head.len()
}

#[test]
fn a_response_is_open_up_to_its_last_byte(rt: HostRuntime) -> Result<(), Fail> {
    let heads = [
        "HTTP/1.1 200 OK\r\n\r\n",
        "\r\n\nHTTP/1.0 404\n\n",
        "HTTP/1.1 200 \r\nA: b\r\nC:\n\r\n",
    ];
    for head in heads {
        assert_eq!(rt; open_bytes(head.as_bytes()), head.len() - 1, "of {head}");
    }
    Ok(())
}

#[test]
fn a_response_is_open_up_to_what_cannot_stand(rt: HostRuntime) -> Result<(), Fail> {
    let heads = [
        ("HTTP/2.0 200 OK\r\n", 5),
        ("HTTP/1.1  200\r\n", 9),
        ("HTTP/1.1 20x\r\n", 11),
        ("\rHTTP/1.1 200", 1),
        ("HTTP/1.1 200\r\nA b: c\r\n", 15),
    ];
    for (head, open) in heads {
        assert_eq!(rt; open_bytes(head.as_bytes()), open, "of {head}");
    }
    Ok(())
}

/// How many bytes of a request's head, taken one by one, are open in a row from the first.
fn open_request_bytes(alloc: Global, head: &[u8]) -> Result<usize, Fail> {
    let mut scan = RequestScan::start();
    for (index, byte) in head.chunks(1).enumerate() {
        let (seen, _) = head.split_at(index + 1);
        scan.take(alloc, seen, byte)?;
        if !scan.is_open(index + 1) {
            return Ok(index);
        }
    }
    Ok(head.len())
}

#[test]
fn a_request_is_open_up_to_its_last_byte(rt: HostRuntime) -> Result<(), Fail> {
    let heads = [
        ("GET / HTTP/1.1\r\n\r\n", 17),
        ("\r\nPOST /graphql HTTP/1.0\nHost: x\n\n", 33),
        ("GET /\r\n", 6),
        ("GET / HTTP/1.1\r\nA b: c\r\n", 17),
    ];
    for (head, open) in heads {
        assert_eq!(rt;
            open_request_bytes(rt.alloc(), head.as_bytes())?,
            open,
            "of {head}"
        );
    }
    Ok(())
}

#[test]
fn a_place_is_kept_between_pieces(rt: HostRuntime) -> Result<(), Fail> {
    let mut scan = ResponseScan::start();
    let pieces = [
        ("HTTP/1.1 200 OK\r\nNa", 19),
        ("me", 21),
        (": a", 24),
        ("\r\n\r", 27),
    ];
    for (piece, taken) in pieces {
        scan.take(piece.as_bytes());
        assert!(rt; scan.is_open(taken), "behind {piece}");
    }
    scan.take(b"\n");
    assert!(rt; !scan.is_open(28));
    Ok(())
}
