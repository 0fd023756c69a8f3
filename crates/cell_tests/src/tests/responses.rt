use etcd_wire::response_in;
use std::test::Fail;

/// Responses as etcd gives them: small ones, larger ones, and refusals; and such as run to the end.
static RESPONSES: [(&'static str, u16, &'static str); 4] = [
    (
        "HTTP/1.1 200 OK\r\nContent-Type: application/json\r\nContent-Length: 2\r\nConnection: close\r\n\r\n{}",
        200,
        "{}",
    ),
    (
        "HTTP/1.1 200 OK\r\nConnection: close\r\nTransfer-Encoding: chunked\r\n\r\n2\r\n{\"\r\n3\r\na\"}\r\n0\r\n\r\n",
        200,
        "{\"a\"}",
    ),
    (
        "HTTP/1.1 400 Bad Request\r\nTrailer: Grpc-Trailer-Content-Type\r\nTransfer-Encoding: chunked\r\n\r\n2\r\n{}\r\n0\r\nGrpc-Trailer-Content-Type: application/grpc\r\n\r\n",
        400,
        "{}",
    ),
    (
        "HTTP/1.1 404 Not Found\r\nContent-Length: 0\r\n\r\nmore",
        404,
        "",
    ),
];

#[test]
fn a_response_has_its_body_whole(rt: HostRuntime) -> Result<(), Fail> {
    for (text, status, body) in RESPONSES {
        let response = response_in(rt.alloc(), text.as_bytes())?;
        assert_eq!(rt; response.status, status, "{text}");
        assert_eq!(rt; response.body.as_slice(), body.as_bytes(), "{text}");
    }
    Ok(())
}

#[test]
fn what_is_cut_or_has_no_end_is_none(rt: HostRuntime) {
    for text in [
        "",
        "HTTP/1.1 200 OK\r\nContent-Length: 2\r\n\r\n{",
        "HTTP/1.1 200 OK\r\nContent-Length: 2\r\n",
        "HTTP/1.1 200 OK\r\nTransfer-Encoding: chunked\r\n\r\n2\r\n{}\r\n",
        "HTTP/1.1 200 OK\r\nTransfer-Encoding: chunked\r\n\r\n2\r\n{}\r\n0\r\n",
        "HTTP/1.1 200 OK\r\nTransfer-Encoding: chunked\r\n\r\n2\r\n{}}\r\n0\r\n\r\n",
        "HTTP/1.1 200 OK\r\nContent-Length: 2\r\nTransfer-Encoding: chunked\r\n\r\n{}",
        "HTTP/1.1 200 OK\r\n\r\n{}",
        "HTTP/1.0 200 OK\r\n\r\n{}",
    ] {
        assert!(rt; response_in(rt.alloc(), text.as_bytes()).is_err(), "{text}");
    }
}
