//! Sockets by a port or by a path: `Listener` and `Stream`.

ghost use Rattle.std.specs.Prelude.{⊤};

use mio::event::Source;
use mio::net::{TcpListener, TcpStream, UnixListener, UnixStream};
use mio::{Interest, Registry, Token};
use std::io::{self, Read, Write};
use std::net::Shutdown;

/// A socket to which clients connect.
#[derive(Drop)]
pub(crate) enum Listener {
    /// A port at 127.0.0.1.
    Port(TcpListener),
    /// A Unix socket.
    Path(UnixListener),
}

impl Listener {
    /// Accepts the next client, without waiting for one.
    ///
    /// # Errors
    ///
    /// `WouldBlock` if no client waits, or the failure of the system.
    pub(crate) fn accept(&self) -> io::Result<Stream> {
        match self {
            Listener::Port(listener) => match listener.accept() {
                Ok((stream, _)) => Ok(Stream::Port(stream)),
                Err(error) => Err(error),
            },
            Listener::Path(listener) => match listener.accept() {
                Ok((stream, _)) => Ok(Stream::Path(stream)),
                Err(error) => Err(error),
            },
        }
    }

    /// Has events say when clients wait.
    pub(crate) fn watch(&mut self, registry: &Registry, token: Token) -> io::Result<()> {
        match self {
            Listener::Port(listener) => registry.register(listener, token, Interest::READABLE),
            Listener::Path(listener) => registry.register(listener, token, Interest::READABLE),
        }
    }
}

/// The connection of a client. Reading and writing never wait.
#[derive(Drop)]
pub(crate) enum Stream {
    /// A connection to a port.
    Port(TcpStream),
    /// A connection to a Unix socket.
    Path(UnixStream),
}

impl Stream {
    /// Has small writes sent at once, where the system would join them.
    pub(crate) fn set_nodelay(&self) -> io::Result<()> {
        match self {
            Stream::Port(stream) => stream.set_nodelay(true),
            Stream::Path(_) => Ok(()),
        }
    }

    /// Ends the own side.
    pub(crate) fn end(&self) -> io::Result<()> {
        match self {
            Stream::Port(stream) => stream.shutdown(Shutdown::Write),
            Stream::Path(stream) => stream.shutdown(Shutdown::Write),
        }
    }
}

impl Read for Stream {
    fn read(&mut self, buf: &mut [u8]) -> io::Result<usize> {
        match self {
            Stream::Port(stream) => stream.read(buf),
            Stream::Path(stream) => stream.read(buf),
        }
    }
}

impl Write for Stream {
    fn write(&mut self, buf: &[u8]) -> io::Result<usize> {
        match self {
            Stream::Port(stream) => stream.write(buf),
            Stream::Path(stream) => stream.write(buf),
        }
    }

    fn flush(&mut self) -> io::Result<()> {
        Ok(())
    }
}

impl Source for Stream {
    ghost keeps = { λ _ _. ⊤ };

    fn register(
        &mut self,
        registry: &Registry,
        token: Token,
        interests: Interest,
    ) -> io::Result<()> {
        match self {
            Stream::Port(stream) => stream.register(registry, token, interests),
            Stream::Path(stream) => stream.register(registry, token, interests),
        }
    }

    fn reregister(
        &mut self,
        registry: &Registry,
        token: Token,
        interests: Interest,
    ) -> io::Result<()> {
        match self {
            Stream::Port(stream) => stream.reregister(registry, token, interests),
            Stream::Path(stream) => stream.reregister(registry, token, interests),
        }
    }

    fn deregister(&mut self, registry: &Registry) -> io::Result<()> {
        match self {
            Stream::Port(stream) => stream.deregister(registry),
            Stream::Path(stream) => stream.deregister(registry),
        }
    }
}
