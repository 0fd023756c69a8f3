//! The command `serve`: the controller that is kept in a file, or those of a folder, over HTTP.

ghost use Rattle.std.specs.Prelude.{◌≡◌, Some, Err, IfErr, IfOk, IfSome, OnOk, false, true};
ghost use Rattle.std.specs.Prelude.{option_map, string_bytes};
ghost use Rattle.etcd_place.specs.Place.{is_etcd as is_etcd_text};
ghost use Rattle.jdf_net.specs.ServeCommand.{EndsServe, IsAddressOf, IsNowhere, IsOfText};
ghost use Rattle.jdf_net.specs.ServeCommand.{IsPostOf, IsUnserved};
ghost use Rattle.shop_folder.specs.Place.{path_of};
ghost use Rattle.streams.specs.declared.refused.Refused.TheVariants.{LoadFailed};

use document_commands::{CausedFault, give_up_caused};
use etcd_place::{EtcdFolder, EtcdPlace, is_etcd};
use jdf_server::{Server, Service};
use keepers::Locks;
use mio::net::TcpListener;
use peers_file::NO_PEERS;
use server_post::Post;
use server_steps::check_path;
use shop_folder::{Place, peers_of};
use std::alloc::{Alloc, AllocError, Global};
use std::io::{self, ErrorKind, Write};
use std::net::{Net, SocketAddr, ToSocketAddrs};
use std::rt::Files;
use std::time::Clock;
use streams::{Counted, Fault, Refused};

/// A listener on an address, which is a host and a port.
fn listen<R: Net>(rt: &R, address: &str) -> io::Result<TcpListener> {
    let mut last = io::Error::from(ErrorKind::NotFound);
    for one in address.to_socket_addrs(rt)? {
        match TcpListener::bind(rt, one) {
            Ok(listener) => return Ok(listener),
            Err(error) => last = error,
        }
    }
    Err(last)
}

/// Writes a line at once, so that whoever waits for its front has all of it.
fn write_line<W: Write>(line: &str, writer: &mut W) -> Result<(), CausedFault>
    ensures { IfErr result (λ caused. IsUnserved caused.fault) }
{
    if writer.write_all(line.as_bytes()).is_err() || writer.flush().is_err() {
        return Err(CausedFault::without_cause(Fault::Device(Refused::WriteFailed)));
    }
    Ok(())
}

/// The address of a listener.
fn told_address(address: io::Result<SocketAddr>) -> Result<SocketAddr, CausedFault>
    ensures { IfErr result (λ caused. IsUnserved caused.fault) }
{
    match address {
        Ok(address) => Ok(address),
        Err(_) => Err(CausedFault::without_cause(Fault::Device(Refused::NoConnection))),
    }
}

/// Writes the address that is listened on.
fn announce<W: Write>(
    alloc: Global,
    address: io::Result<SocketAddr>,
    writer: &mut W,
) -> Result<(), CausedFault>
    ensures { IfErr result (λ caused. IsUnserved caused.fault) }
{
    let address = told_address(address)?;
    let line = format!(in alloc; "Listening on {address}\n")?;
    write_line(line.as_str(), writer)
}

/// Writes where the page is.
fn announce_page<W: Write>(
    alloc: Global,
    listener: &TcpListener,
    writer: &mut W,
) -> Result<(), CausedFault>
    ensures { IfErr result (λ caused. IsUnserved caused.fault) }
{
    let address = told_address(listener.local_addr())?;
    let line = format!(in alloc; "Page at http://{address}/\n")?;
    write_line(line.as_str(), writer)
}

/// Why it can't listen on an address.
fn listen_fault(alloc: Global, address: &str, error: &io::Error) -> CausedFault
    ensures { IsUnserved result.fault }
{
    match error.kind() {
        ErrorKind::OutOfMemory => CausedFault::without_cause(Fault::from(AllocError)),
        _ => {
            let fault = Fault::Device(Refused::NoConnection);
            CausedFault::of_error(alloc, fault, address, error)
        }
    }
}

/// What is served of etcd: the value of a place, or those of a folder, with a `/` behind it.
fn place_in_etcd<'a>(text: &'a str) -> Place<'a>
    ensures { IsOfText text.now result }
{
    match text.strip_suffix("/") {
        Some(folder) => {
            if is_etcd(folder) {
                return Place::Folder(folder);
            }
            Place::File(text)
        }
        None => Place::File(text),
    }
}

/// What is served: what lies at a path, or in etcd, which isn't looked for among files.
fn place_of<'a, R: Files>(rt: &R, path: &'a str) -> Place<'a>
    // Proved: What begins with `etcd://` isn't looked for among files: with a `/` at its end it is
    // the folder before that, else one controller.
    // By `etcd`.
    ensures file { is_etcd_text path.now ≡ false → path_of result ≡ path.now }
    ensures etcd { is_etcd_text path.now ≡ true → IsOfText path.now result }
{
    if is_etcd(path) {
        return place_in_etcd(path);
    }
    Place::at(rt, path)
}

/// What is known where nothing could be loaded of what is to be a place in etcd.
fn etcd_words(path: &str) -> &'static str {
    match EtcdPlace::of(path) {
        Some(_) => "nothing is kept there, or its node doesn't answer",
        None => "a place in etcd is etcd://HOST:PORT/NAME, and a folder etcd://HOST:PORT/",
    }
}

/// Why no controller could be loaded of a path: what the system says of its file, or what is known
/// of a place in etcd.
fn unloaded<R: Files>(rt: &R, alloc: Global, refused: Refused, path: &str) -> CausedFault
    ensures { result.fault ≡ Fault.Device refused }
{
    let fault = Fault::Device(refused);
    if !is_etcd(path) {
        return CausedFault::at_path(rt, alloc, fault, path, "");
    }
    let words = etcd_words(path);
    match format!(in alloc; "{path}: {words}") {
        Ok(name) => CausedFault::at(alloc, fault, name.as_str()),
        Err(_) => CausedFault::without_cause(fault),
    }
}

/// Whether a controller can be loaded of a file that is served, or of a key. Of a folder nothing is
/// read, so that many files cost nothing. Refuses as `check_path`.
fn check<R: Locks + Net + Clock>(rt: &R, alloc: Global, place: &Place<'_>) -> Result<(), Refused>
    ensures { IsNowhere place.now → result ≡ Err LoadFailed }
{
    match place {
        Place::File(path) => check_path(rt, alloc, path),
        Place::Folder(path) => {
            if !is_etcd(path) {
                return Ok(());
            }
            match EtcdFolder::of(path) {
                Some(_) => Ok(()),
                None => Err(Refused::LoadFailed),
            }
        }
    }
}

/// The path of what lies as `peers.json` in a folder that is served.
fn folder_peers<R: Files>(
    rt: &R,
    alloc: Global,
    place: &Place<'_>,
) -> Result<Option<String>, AllocError> {
    match place {
        Place::File(_) => Ok(None),
        Place::Folder(folder) => {
            if is_etcd(folder) {
                return Ok(None);
            }
            peers_of(rt, alloc, folder)
        }
    }
}

/// The path of the peers' file: the one that is named, or else that of the folder.
fn peers_path<R: Files>(
    rt: &R,
    alloc: Global,
    service: &Service<'_>,
    place: &Place<'_>,
) -> Result<Option<String>, AllocError>
    ensures { IfOk result (λ path. IfSome service.now.peers (λ named.
        option_map string_bytes path ≡ Some named.now)) }
{
    match service.peers {
        Some(path) => Ok(Some(String::from_str(alloc, path)?)),
        None => folder_peers(rt, alloc, place),
    }
}

/// What goes out by itself, where there is a peers' file. Refuses `LoadFailed` where that can't be
/// read or is none, and `Memory`.
fn post_of<R: Files>(
    rt: &R,
    alloc: Global,
    service: &Service<'_>,
    place: &Place<'_>,
) -> Result<Option<Post>, CausedFault>
    ensures named { IfOk result (λ post. IsPostOf service.now.peers post) }
    ensures refused { IfErr result (λ caused. IsUnserved caused.fault) }
{
    let Some(file) = peers_path(rt, alloc, service, place)? else {
        return Ok(None);
    };
    let path = String::from_str(alloc, file.as_str())?;
    match Post::of(rt, alloc, path) {
        Ok(post) => Ok(Some(post)),
        Err(refused) => {
            let fault = Fault::Device(refused);
            Err(CausedFault::at_path(rt, alloc, fault, file.as_str(), NO_PEERS))
        }
    }
}

/// An address with its host: where it is a port alone, that of loopback.
fn with_host(alloc: Global, address: &str) -> Result<String, AllocError>
    ensures { IfOk result (λ at. IsAddressOf address.now (string_bytes at)) }
{
    if address.contains(':') {
        String::from_str(alloc, address)
    } else {
        format!(in alloc; "127.0.0.1:{address}")
    }
}

/// Listens for readers of the page at an address, and writes it.
fn begin_page<R: Files + Net, F, W: Write>(
    rt: &R,
    alloc: Global,
    server: &mut Server<'_, R, F>,
    address: &str,
    writer: &mut W,
) -> Result<(), CausedFault>
    ensures post { server.new.post ≡ server.old.post }
    ensures refused { IfErr result (λ caused. IsUnserved caused.fault) }
{
    let address = with_host(alloc, address)?;
    let address = address.as_str();
    let listener = match listen(rt, address) {
        Ok(listener) => listener,
        Err(error) => return Err(listen_fault(alloc, address, &error)),
    };
    announce_page(alloc, &listener, writer)?;
    match server.open_page(listener) {
        Ok(()) => Ok(()),
        Err(error) => Err(listen_fault(alloc, address, &error)),
    }
}

/// Listens for orders on a local socket, and writes where it is.
fn begin_orders<R: Files + Net, F, W: Write>(
    alloc: Global,
    server: &mut Server<'_, R, F>,
    path: &str,
    writer: &mut W,
) -> Result<(), CausedFault>
    ensures post { server.new.post ≡ server.old.post }
    ensures refused { IfErr result (λ caused. IsUnserved caused.fault) }
{
    if let Err(error) = server.open_orders(path) {
        return Err(listen_fault(alloc, path, &error));
    }
    let line = format!(in alloc; "Orders at {path}\n")?;
    write_line(line.as_str(), writer)
}

/// Has a server send what is out by itself, if it is to, and writes the addresses that it listens
/// on.
fn begin<R: Files + Net, F, W: Write>(
    rt: &R,
    alloc: Global,
    server: &mut Server<'_, R, F>,
    service: &Service<'_>,
    place: &Place<'_>,
    writer: &mut W,
) -> Result<(), CausedFault>
    ensures named { OnOk result (IsPostOf service.now.peers server.new.post) }
    ensures refused { IfErr result (λ caused. IsUnserved caused.fault) }
{
    server.send_by(post_of(rt, alloc, service, place)?);
    announce(alloc, server.listens_at(), writer)?;
    if let Some(address) = service.page {
        begin_page(rt, alloc, server, address, writer)?;
    }
    match service.orders {
        Some(path) => begin_orders(alloc, server, path, writer),
        None => Ok(()),
    }
}

/// Serves the connections that come.
fn serve_with<R: Locks + Net + Clock + Alloc + Clone + Drop, F: Write + Drop, W: Write>(
    rt: &R,
    alloc: Global,
    mut server: Server<'_, R, F>,
    service: &Service<'_>,
    place: &Place<'_>,
    writer: &mut W,
) -> Result<(), CausedFault>
    ensures { IfErr result (λ caused. IsUnserved caused.fault) }
{
    begin(rt, alloc, &mut server, service, place, writer)?;
    server.run();
    Ok(())
}

/// Listens, and serves the connections that come.
fn serve<R: Locks + Net + Clock + Alloc + Clone + Drop, W: Write, F: Write>(
    rt: &R,
    alloc: Global,
    service: &Service<'_>,
    writer: &mut W,
    faults: &mut F,
) -> Result<(), CausedFault>
    ensures { IfErr result (λ caused. IsUnserved caused.fault) }
{
    let place = place_of(rt, service.path);
    if let Err(refused) = check(rt, alloc, &place) {
        return Err(unloaded(rt, alloc, refused, service.path));
    }
    let listener = match listen(rt, service.listen) {
        Ok(listener) => listener,
        Err(error) => return Err(listen_fault(alloc, service.listen, &error)),
    };
    match Server::new(rt, alloc, service, place, listener, &mut *faults) {
        Ok(server) => serve_with(rt, alloc, server, service, &place, writer),
        Err(error) => Err(listen_fault(alloc, service.listen, &error)),
    }
}

/// Serves the controller that is kept in a file, or those in the files of a folder, over HTTP/1.1
/// (RFC 9112): listens on an address, writes it as soon as it does, and answers one request of each
/// connection. Clients are served side by side: none is waited for, and whoever takes longer than
/// the limit for the request to come, for the step to be made or for the response to be taken is
/// cut off. Of a folder a message leads to the file of its receiver, or in the folder of that name
/// of its sender; one for none that is there is answered with 404. Where there is a peers' file,
/// a sender that it doesn't know is answered with 403, and what is out goes to its receiver by
/// itself. The messages that wait for a controller are handed to it one
/// after the other, and its state is saved once behind the last, before their responses are
/// written; the file is locked for that alone, so that the commands on the file go on beside it,
/// and where somebody else has it locked its clients wait, and no others. A line of each connection
/// is written in `faults`, which is never waited for. Behind the save, and before the responses are
/// written, a line of each message that was taken and changed its controller is appended to the
/// journal, where one is named; where that fails, the log tells it.
///
/// Answers the exit status: 0 where it served as many connections as were asked for; 1 where memory
/// ran out before it served any; 4 where no controller can be loaded of a file as it begins, and
/// where it can't listen or write where it does; that is told in `faults`, with the path or the
/// address that it comes from and what the system says of that.
pub fn run_serve<R: Locks + Net + Clock + Alloc + Clone + Drop, W: Write, F: Write>(
    rt: &R,
    alloc: Global,
    service: &Service<'_>,
    writer: &mut Counted<W>,
    faults: &mut Counted<F>,
) -> u8
    // Proved: The exit status of `serve` is 0, 1 or 4, or 2 where its words are no call.
    // By `run_network`.
    ensures { EndsServe result }
{
    match serve(rt, alloc, service, writer, faults) {
        Ok(()) => 0,
        Err(caused) => give_up_caused(alloc, caused, faults),
    }
}
