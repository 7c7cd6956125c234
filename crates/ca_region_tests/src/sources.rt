// Sources of these tests alone.

/// A site in each loop's condition, in the parts of a `for`, beside `break` and `continue`, in both branches of an `if`,
/// and behind a `return`. The items are those of lines 4 (1), 5 (2), 6 (3), 7 (4), 11 (5), 12 (6), 13 (7, 8, 9), 14 (10),
/// 15 (11), 17 (12), 20 (13), 21 (14) and 22 (15).
pub(crate) const LOOPS: &[u8] = b"int a[9];
int g;
int main(void) {
  int i = 0;
  while (a[0]) {
    if (a[1]) break;
    i = a[2];
    continue;
  }
  do {
    i = i + 1;
  } while (a[3]);
  for (i = a[4]; a[5]; i = a[6]) {
    if (a[7]) {
      a[i] = 1;
    } else {
      g = a[8];
    }
  }
  return 0;
  i = a[0];
}";

/// A first item that destroys at its own site, and a loop round an item that does. The items are those of lines 3 (1),
/// 4 (2), 5 (3), 7 (4) and 8 (5).
pub(crate) const OWN_SITES: &[u8] = b"int *p;
int main(void) {
  *p = 1;
  while (1) {
    *p = *p + 1;
  }
  return 0;
}";

/// Items with several sites.
pub(crate) const SEVERAL_SITES: &[u8] = b"struct s { int f; };
struct s *q;
int a[4];
int b[4];
int main(void) {
  int i = 0;
  assert((a[i]) && b[a[1]]);
  a[i] += (q->f);
  free(q);
  return 0;
}";
