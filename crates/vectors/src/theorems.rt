// Published vectors as theorems about the definitions, which the checker computes.
ghost use Rattle.vectors.specs.Ciphers.{ChaCha20Vectors};
ghost use Rattle.vectors.specs.Digests.{Sha256Vectors};

/// The definition of ChaCha20 gives the vectors of RFC 8439.
pub fn chacha20_vectors_hold()
    ensures { ChaCha20Vectors }
{}

/// The definitions of SHA-256 and HMAC-SHA-256 give the vectors of RFC 6234 and RFC 4231.
pub fn sha256_vectors_hold()
    ensures { Sha256Vectors }
{}
